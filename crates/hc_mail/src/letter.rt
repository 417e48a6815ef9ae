//! Letters, which go through a mailbox: a content in a box, with its number.
use std::marker::Model;

/// A content in memory of its own: to hand it over moves a pointer, and none of its bytes. Contracts see the content.
#[derive(Drop)]
pub struct ContentBox<T> {
    pub(crate) own: Box<T>,
}

impl<T> Model for ContentBox<T> {
    ghost Value = { T };

    ghost view = { λ boxed. boxed.own.value };
}

/// A content and its number: contents are numbered from 1 in the order in which they are sent. A blank one has number 0.
#[derive(Drop)]
pub struct Letter<T> {
    pub number: u64,
    pub content: ContentBox<T>,
}

//! The post of a task, as a content of a mailbox.
ghost use Rattle.std.specs.Prelude.{◌≡◌, ◌≤◌, IfOk, length};
ghost use Rattle.hc_mail.specs.Posts.{mailed_post};

use crate::content::Content;
use crate::image::put;
use std::alloc::{AllocError, Global};
use std::marker::Model;

/// The outputs that a task posts for an epoch. Its memory suffices from the start for the most that it may hold.
#[derive(Drop)]
pub struct TaskPost {
    epoch: u32,
    // the outputs, at the front of memory for the most of them
    memory: Vec<u8>,
    size: usize,
}

impl Model for TaskPost {
    ghost use Rattle.std.specs.Prelude.{◌≤◌, length, take};
    ghost use Rattle.hc_mail.specs.Posts.{MailedPost};

    ghost Value = { MailedPost };

    ghost view = { λ post. record { epoch = post.epoch; bytes = take post.size post.memory.items; room = length post.memory.items } };

    ghost invariant = { λ post. post.size ≤ length post.memory.items };
}

impl TaskPost {
    /// Returns the epoch for which the post was made.
    pub fn epoch(&self) -> u32
        ensures { result ≡ self.now.epoch }
    {
        self.epoch
    }

    /// Returns the outputs.
    pub fn bytes(&self) -> &[u8]
        ensures bytes { result.now ≡ self.now.bytes }
        ensures most { length result.now ≤ self.now.room }
    {
        &self.memory[..self.size]
    }

    /// Makes it a post of these outputs for an epoch. The capacity must suffice.
    pub fn write(&mut self, epoch: u32, bytes: &[u8])
        requires { length bytes.now ≤ self.old.room }
        ensures { self.new ≡ mailed_post epoch bytes.now self.old.room }
    {
        put(&mut self.memory, 0, bytes);
        self.epoch = epoch;
        self.size = bytes.len();
    }
}

impl Content for TaskPost {
    ghost use Rattle.hc_mail.specs.Posts.{post_kind};

    ghost kind = { post_kind };

    fn blank(alloc: Global, bytes: usize, _datagrams: usize) -> Result<TaskPost, AllocError> {
        Ok(TaskPost {
            epoch: 0,
            memory: vec![in alloc; 0; bytes]?,
            size: 0,
        })
    }
}

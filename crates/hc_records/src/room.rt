//! Memory for a list that will grow, allocated before anything changes, so that the growth itself cannot fail.
ghost use Rattle.std.specs.Prelude.{◌≡◌, ◌+◌, ◌≤◌, ◌++◌, [], ◌∷◌, length, vec_capacity, IfOk};

use crate::items::Items;
use std::alloc::{AllocError, Global};
use std::marker::Model;

/// Memory for a list that will grow. Contracts see the number of elements that it holds.
#[derive(Drop)]
pub struct Room<T> {
    space: Vec<T>,
}

impl<T> Model for Room<T> {
    ghost use Rattle.std.specs.Prelude.{[], ◌≡◌, ℕ, vec_capacity};

    ghost Value = { ℕ };

    ghost view = { λ room. vec_capacity room.space };

    ghost invariant = { λ room. room.space.items ≡ [] };
}

impl<T: Drop> Room<T> {
    /// Returns memory for the elements of a list, and for `more` after them: for twice as many if the list's own memory is too
    /// small, so that a list that grows bit by bit rarely moves. `AllocError` if an allocation fails.
    pub fn for_more(alloc: Global, list: &Vec<T>, more: usize) -> Result<Room<T>, AllocError>
        ensures { IfOk result (λ room. length list.now.items + more ≤ room) }
    {
        let Some(count) = list.len().checked_add(more) else {
            return Err(AllocError);
        };
        let size = if count <= list.capacity() {
            count
        } else {
            count.saturating_mul(2)
        };
        Ok(Room {
            space: Vec::with_capacity(alloc, size)?,
        })
    }

    /// Gives a list the capacity for more elements: its own memory stays if it suffices, and otherwise its elements move to
    /// this memory, which is then the list's. It cannot fail.
    pub fn widen(self, list: &mut Vec<T>, more: usize)
        requires { length list.old.items + more ≤ self }
        ensures items { list.new.items ≡ list.old.items }
        ensures room { length list.new.items + more ≤ vec_capacity list.new }
    {
        let Room { mut space } = self;
        if more <= list.capacity() - list.len() {
            return;
        }
        let _moved = space.append(list);
        *list = space;
    }
}

impl<T: Drop> Items<T> {
    /// Returns the memory that the list needs to grow by a number of elements. `AllocError` if an allocation fails. The list is
    /// unchanged.
    pub fn room_for(&self, alloc: Global, more: usize) -> Result<Room<T>, AllocError>
        ensures { IfOk result (λ room. length self.now + more ≤ room) }
    {
        Room::for_more(alloc, &self.inside, more)
    }

    /// Appends an element, in memory that was reserved. It cannot fail.
    pub fn push_into(&mut self, room: Room<T>, item: T)
        requires { length self.old + 1 ≤ room }
        ensures { self.new ≡ self.old ++ item ∷ [] }
    {
        room.widen(&mut self.inside, 1);
        self.inside.push_reserved(item);
    }
}

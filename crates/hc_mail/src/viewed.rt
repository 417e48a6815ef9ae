//! The image of a task, in memory of its receiver that has an address.
ghost use Rattle.std.specs.Prelude.{◌≡◌, ◌≤◌, length, take};
ghost use Rattle.std.specs.Vec.{vec_ptr};

use crate::holder::Holder;
use crate::image::{ImageHead, TaskImage};
use crate::letter::ContentBox;
use std::marker::Model;
use std::mem;

/// The image of a task, held by its receiver. Contracts see the memory of its data too, and so their address. An image in a
/// mailbox has none: it equals the one that was sent, wherever its data lie.
#[derive(Drop)]
pub struct ViewedImage {
    head: ImageHead,
    memory: Vec<u8>,
    size: usize,
    output_memory: Vec<u8>,
    output_size: usize,
    serials: Vec<Option<u64>>,
    most_datagrams: usize,
}

impl Model for ViewedImage {
    ghost use Rattle.std.specs.Prelude.{◌≡◌, ◌≤◌, length, take, vec_capacity, vec_len};
    ghost use Rattle.hc_mail.specs.Images.{LentImage};

    ghost Value = { LentImage };

    ghost view = { λ viewed. record { image = record { head = viewed.head; bytes = take viewed.size viewed.memory.items; serials = viewed.serials.items; outputs = take viewed.output_size viewed.output_memory.items; room = (length viewed.memory.items, viewed.most_datagrams) }; memory = viewed.memory } };

    ghost invariant = { λ viewed. (viewed.size ≤ length viewed.memory.items) × (viewed.output_size ≤ length viewed.output_memory.items) × (length viewed.output_memory.items ≡ length viewed.memory.items) × (vec_len viewed.serials ≤ viewed.most_datagrams) × (viewed.most_datagrams ≤ vec_capacity viewed.serials) };
}

impl ViewedImage {
    /// Returns an image in this form. No byte of it moves.
    pub(crate) fn of(image: TaskImage) -> ViewedImage
        ensures { result.image ≡ image }
    {
        let TaskImage {
            head,
            memory,
            size,
            output_memory,
            output_size,
            serials,
            most_datagrams,
        } = image;
        ViewedImage {
            head,
            memory,
            size,
            output_memory,
            output_size,
            serials,
            most_datagrams,
        }
    }

    /// Returns the head of the image.
    pub fn head(&self) -> ImageHead
        ensures { result ≡ self.now.image.head }
    {
        self.head
    }

    /// Returns the data of the datagrams, one after another, each with its own length; zeros for one without data.
    pub fn bytes(&self) -> &[u8]
        ensures bytes { result.now ≡ self.now.image.bytes }
        ensures most { length result.now ≤ self.now.image.room.0 }
    {
        &self.memory[..self.size]
    }

    /// Returns the address of those data. It stays the same until another image is looked at.
    pub fn as_ptr(&self) -> *const u8
        ensures address { result ≡ vec_ptr self.now.memory }
        ensures bytes { take (length self.now.image.bytes) self.now.memory.items ≡ self.now.image.bytes }
    {
        self.memory.as_ptr()
    }

    /// Returns for each datagram the serial of the sending that its data answer, or `None` if it has no data.
    pub fn serials(&self) -> &[Option<u64>]
        ensures serials { result.now ≡ self.now.image.serials }
        ensures most { length result.now ≤ self.now.image.room.1 }
    {
        self.serials.as_slice()
    }

    /// Returns the task's outputs.
    pub fn outputs(&self) -> &[u8]
        ensures outputs { result.now ≡ self.now.image.outputs }
        ensures most { length result.now ≤ self.now.image.room.0 }
    {
        &self.output_memory[..self.output_size]
    }

    /// Exchanges the image for another one. Pointers move, and no byte of the images does.
    fn swap(&mut self, image: &mut TaskImage)
        ensures taken { self.new.image ≡ image.old }
        ensures given { image.new ≡ self.old.image }
    {
        mem::swap(&mut self.head, &mut image.head);
        mem::swap(&mut self.memory, &mut image.memory);
        mem::swap(&mut self.size, &mut image.size);
        mem::swap(&mut self.output_memory, &mut image.output_memory);
        mem::swap(&mut self.output_size, &mut image.output_size);
        mem::swap(&mut self.serials, &mut image.serials);
        mem::swap(&mut self.most_datagrams, &mut image.most_datagrams);
    }
}

impl Holder<TaskImage> for ViewedImage {
    ghost held = { λ viewed. viewed.image };

    fn exchange(&mut self, content: &mut ContentBox<TaskImage>) {
        self.swap(content.content_mut());
    }
}

//! The image of a task, as a content of a mailbox.
ghost use Rattle.std.specs.Prelude.{◌≡◌, ◌≤◌, ◌<◌, ◌+◌, ◌++◌, length, replicate, take};
ghost use Rattle.hc_mail.specs.Images.{begun, blank_head, with_data, with_outputs, with_zeros};

use crate::content::Content;
use std::alloc::{AllocError, Global};
use std::marker::Model;

/// The state of the line and of the seat when an image was shown.
#[derive(Clone, Copy)]
pub enum LineState {
    /// The line is open.
    Open,
    /// The line was closed.
    Closed,
    /// Another seat took the place of this one.
    Replaced,
}

/// The head of an image: all but its data.
#[derive(Clone, Copy)]
pub struct ImageHead {
    /// The line's epoch when the image was made.
    pub epoch: u32,
    /// The epoch of the last edit that had changed the task when the image was made, 0 if none had.
    pub task_epoch: u32,
    /// The first serial of the task's last sending, 0 before one.
    pub first_serial: u64,
    /// The number of the seat's post that was taken last, 0 before the first.
    pub taken: u64,
    /// Whether the core refused that post.
    pub is_refused: bool,
    /// The state of the line and of the seat.
    pub line: LineState,
}

impl ImageHead {
    /// Returns the head of a blank image.
    pub fn blank() -> ImageHead
        ensures { result ≡ blank_head }
    {
        ImageHead {
            epoch: 0,
            task_epoch: 0,
            first_serial: 0,
            taken: 0,
            is_refused: false,
            line: LineState::Open,
        }
    }
}

/// The image of a task: its head, the data of its datagrams one after another, the serial that the data of each answer, and the
/// task's outputs. Its memory suffices from the start for the most that it may hold.
#[derive(Drop)]
pub struct TaskImage {
    pub(crate) head: ImageHead,
    // the bytes and the outputs, each at the front of memory for the most of them
    pub(crate) memory: Vec<u8>,
    pub(crate) size: usize,
    pub(crate) output_memory: Vec<u8>,
    pub(crate) output_size: usize,
    pub(crate) serials: Vec<Option<u64>>,
    // the capacity in datagrams
    pub(crate) most_datagrams: usize,
}

impl Model for TaskImage {
    ghost use Rattle.std.specs.Prelude.{◌≡◌, ◌≤◌, length, take, vec_capacity, vec_len};
    ghost use Rattle.hc_mail.specs.Images.{Image};

    ghost Value = { Image };

    ghost view = { λ image. record { head = image.head; bytes = take image.size image.memory.items; serials = image.serials.items; outputs = take image.output_size image.output_memory.items; room = (length image.memory.items, image.most_datagrams) } };

    ghost invariant = { λ image. (image.size ≤ length image.memory.items) × (image.output_size ≤ length image.output_memory.items) × (length image.output_memory.items ≡ length image.memory.items) × (vec_len image.serials ≤ image.most_datagrams) × (image.most_datagrams ≤ vec_capacity image.serials) };
}

/// Writes bytes at a place of a slice.
pub(crate) fn put(out: &mut [u8], at: usize, bytes: &[u8])
    requires { at + length bytes.now ≤ length out.old }
    ensures put { take (at + length bytes.now) out.new ≡ take at out.old ++ bytes.now }
    ensures len { length out.new ≡ length out.old }
{
    out[at..at + bytes.len()].copy_from_slice(bytes);
}

/// Writes `size` zeros at a place of a slice.
fn put_zeros(out: &mut [u8], at: usize, size: usize)
    requires { at + size ≤ length out.old }
    ensures put { take (at + size) out.new ≡ take at out.old ++ replicate size 0 }
    ensures len { length out.new ≡ length out.old }
{
    out[at..at + size].fill(0);
}

impl TaskImage {
    /// Returns the head of the image.
    pub fn head(&self) -> ImageHead
        ensures { result ≡ self.now.head }
    {
        self.head
    }

    /// Returns the data of the datagrams, one after another, each with its own length; zeros for one without data.
    pub fn bytes(&self) -> &[u8]
        ensures bytes { result.now ≡ self.now.bytes }
        ensures most { length result.now ≤ self.now.room.0 }
    {
        &self.memory[..self.size]
    }

    /// Returns for each datagram the serial of the sending that its data answer, or `None` if it has no data.
    pub fn serials(&self) -> &[Option<u64>]
        ensures serials { result.now ≡ self.now.serials }
        ensures most { length result.now ≤ self.now.room.1 }
    {
        self.serials.as_slice()
    }

    /// Returns the task's outputs.
    pub fn outputs(&self) -> &[u8]
        ensures outputs { result.now ≡ self.now.outputs }
        ensures most { length result.now ≤ self.now.room.0 }
    {
        &self.output_memory[..self.output_size]
    }

    /// Begins the image anew with this head, without a datagram.
    pub(crate) fn begin(&mut self, head: ImageHead)
        ensures { self.new ≡ begun head self.old.room }
    {
        self.head = head;
        self.size = 0;
        self.output_size = 0;
        self.serials.clear();
    }

    /// Adds a datagram with these data, which answer the sending with this serial. The capacity must suffice.
    pub(crate) fn add(&mut self, bytes: &[u8], serial: u64)
        requires bytes { length self.old.bytes + length bytes.now ≤ self.old.room.0 }
        requires datagrams { length self.old.serials < self.old.room.1 }
        ensures { self.new ≡ with_data bytes.now serial self.old }
    {
        put(&mut self.memory, self.size, bytes);
        self.size += bytes.len();
        self.serials.push_reserved(Some(serial));
    }

    /// Adds a datagram of `size` bytes without data: they are zeros. The capacity must suffice.
    pub(crate) fn add_zeros(&mut self, size: usize)
        requires bytes { length self.old.bytes + size ≤ self.old.room.0 }
        requires datagrams { length self.old.serials < self.old.room.1 }
        ensures { self.new ≡ with_zeros size self.old }
    {
        put_zeros(&mut self.memory, self.size, size);
        self.size += size;
        self.serials.push_reserved(None);
    }

    /// Adds outputs of the task after those that the image has. The capacity must suffice.
    pub(crate) fn add_outputs(&mut self, outputs: &[u8])
        requires { length self.old.outputs + length outputs.now ≤ self.old.room.0 }
        ensures { self.new ≡ with_outputs outputs.now self.old }
    {
        put(&mut self.output_memory, self.output_size, outputs);
        self.output_size += outputs.len();
    }
}

impl Content for TaskImage {
    ghost use Rattle.hc_mail.specs.Images.{image_kind};

    ghost kind = { image_kind };

    fn blank(alloc: Global, bytes: usize, datagrams: usize) -> Result<TaskImage, AllocError> {
        Ok(TaskImage {
            head: ImageHead::blank(),
            memory: vec![in alloc; 0; bytes]?,
            size: 0,
            output_memory: vec![in alloc; 0; bytes]?,
            output_size: 0,
            serials: Vec::with_capacity(alloc, datagrams)?,
            most_datagrams: datagrams,
        })
    }
}

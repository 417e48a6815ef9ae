//! The writing of images by their sender: an image is begun, gets the data of the task's datagrams and the task's outputs, and
//! is sent.
ghost use Rattle.std.specs.Prelude.{◌≡◌, ◌≤◌, ◌<◌, ◌+◌, length};
ghost use Rattle.hc_mail.specs.Images.{begun, with_data, with_outputs, with_zeros};

use crate::image::{ImageHead, TaskImage};
use crate::sender::Sender;

impl Sender<TaskImage> {
    /// Begins an image with this head, without a datagram.
    pub fn begin(&mut self, head: ImageHead)
        ensures own { self.new.own ≡ begun head self.old.own.room }
        ensures unchanged { self.new.place ≡ self.old.place }
    {
        let table = &self.mail.shared;
        let image = self.seat.slot_mut(table, self.slot).content.content_mut();
        image.begin(head);
    }

    /// Adds a datagram with these data, which answer the sending with this serial. The image's capacity must suffice.
    pub fn add(&mut self, bytes: &[u8], serial: u64)
        requires bytes { length self.old.own.bytes + length bytes.now ≤ self.old.own.room.0 }
        requires datagrams { length self.old.own.serials < self.old.own.room.1 }
        ensures own { self.new.own ≡ with_data bytes.now serial self.old.own }
        ensures unchanged { self.new.place ≡ self.old.place }
    {
        let table = &self.mail.shared;
        let image = self.seat.slot_mut(table, self.slot).content.content_mut();
        image.add(bytes, serial);
    }

    /// Adds a datagram of `size` bytes without data: they are zeros. The image's capacity must suffice.
    pub fn add_zeros(&mut self, size: usize)
        requires bytes { length self.old.own.bytes + size ≤ self.old.own.room.0 }
        requires datagrams { length self.old.own.serials < self.old.own.room.1 }
        ensures own { self.new.own ≡ with_zeros size self.old.own }
        ensures unchanged { self.new.place ≡ self.old.place }
    {
        let table = &self.mail.shared;
        let image = self.seat.slot_mut(table, self.slot).content.content_mut();
        image.add_zeros(size);
    }

    /// Adds outputs of the task after those that the image has. The image's capacity must suffice.
    pub fn add_outputs(&mut self, outputs: &[u8])
        requires { length self.old.own.outputs + length outputs.now ≤ self.old.own.room.0 }
        ensures own { self.new.own ≡ with_outputs outputs.now self.old.own }
        ensures unchanged { self.new.place ≡ self.old.place }
    {
        let table = &self.mail.shared;
        let image = self.seat.slot_mut(table, self.slot).content.content_mut();
        image.add_outputs(outputs);
    }
}

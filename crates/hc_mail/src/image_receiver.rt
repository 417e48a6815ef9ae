//! The receiver of a task's images, which lends the newest one in place.
ghost use Rattle.std.specs.Prelude.{◌≡◌, ◌<◌, false, length, true};
ghost use Rattle.hc_mail.specs.Contents.{StartsWith, counted, newest};
ghost use Rattle.hc_mail.specs.Ends.{reported, seen, StaysAtTable};
ghost use Rattle.hc_mail.specs.Images.{image_kind};

use crate::image::TaskImage;
use crate::letter::ContentBox;
use crate::receiver::Receiver;
use crate::taker::Taker;
use crate::viewed::ViewedImage;
use std::marker::Model;

/// It looks at the newest image of a task, and never waits. The image lies in memory that stays the same until the next look.
#[derive(Drop)]
pub struct ImageReceiver {
    taker: Taker<TaskImage>,
    viewed: ViewedImage,
}

impl Model for ImageReceiver {
    ghost use Rattle.std.specs.Prelude.{◌≡◌};
    ghost use Rattle.hc_mail.specs.Contents.{newest};
    ghost use Rattle.hc_mail.specs.Ends.{seen};
    ghost use Rattle.hc_mail.specs.Images.{ImageEnd, image_kind};

    ghost Value = { ImageEnd };

    ghost view = { λ end. record { place = end.taker.place; room = end.taker.room; memory = end.viewed.memory } };

    ghost invariant = { λ end. (end.viewed.image ≡ newest image_kind end.taker.room (seen end.taker.place)) × (end.viewed.image.room ≡ end.taker.room) };
}

impl ImageReceiver {
    /// Returns a receiver of images in this form. No byte of its image moves.
    pub fn of(receiver: Receiver<TaskImage>) -> ImageReceiver
        ensures { (result.place ≡ receiver.place) × (result.room ≡ receiver.room) }
    {
        let Receiver { taker, shown } = receiver;
        let ContentBox { own } = shown;
        ImageReceiver {
            taker,
            viewed: ViewedImage::of(Box::into_inner(own)),
        }
    }

    /// Takes the newest of all images that had been sent at one moment of this call, and returns whether it is a newer one. They
    /// begin with all that had been sent when it looked before, and with all that a note named.
    pub fn look(&mut self) -> bool
        ensures later { StartsWith (seen self.new.place) (seen self.old.place) × StartsWith (seen self.new.place) (reported self.old.place) }
        ensures newer { result ≡ true → length (seen self.old.place) < length (seen self.new.place) }
        ensures none { result ≡ false → self.new ≡ self.old }
        ensures table { StaysAtTable self.old.place self.new.place × (self.new.room ≡ self.old.room) }
    {
        self.taker.take(&mut self.viewed)
    }

    /// Returns the newest image at the last look; a blank one if none had been sent.
    pub fn content(&self) -> &ViewedImage
        ensures newest { result.now.image ≡ newest image_kind self.now.room (seen self.now.place) }
        ensures room { result.now.image.room ≡ self.now.room }
        ensures memory { result.now.memory ≡ self.now.memory }
    {
        &self.viewed
    }

    /// Returns its number: how many images had been sent at the last look.
    pub fn number(&self) -> u64
        ensures { result ≡ counted (length (seen self.now.place)) }
    {
        self.taker.number()
    }
}

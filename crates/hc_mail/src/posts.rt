//! A sender of posts writes the next post.
ghost use Rattle.std.specs.Prelude.{◌≡◌, ◌≤◌, length};
ghost use Rattle.hc_mail.specs.Posts.{mailed_post};

use crate::post::TaskPost;
use crate::sender::Sender;

impl Sender<TaskPost> {
    /// Writes these outputs for an epoch. The post has room for them.
    pub fn write(&mut self, epoch: u32, bytes: &[u8])
        requires { length bytes.now ≤ self.old.own.room }
        ensures own { self.new.own ≡ mailed_post epoch bytes.now self.old.own.room }
        ensures unchanged { self.new.place ≡ self.old.place }
    {
        let table = &self.mail.shared;
        let post = self.seat.slot_mut(table, self.slot).content.content_mut();
        post.write(epoch, bytes);
    }
}

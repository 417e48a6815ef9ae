//! Steps of a seat: views and learning.
ghost use Rattle.std.specs.Prelude.{◌≡◌, ◌⊎◌, MatchResult, IfOk};
ghost use mathlib.Core.List.{IsPrefix};
ghost use Rattle.hc_publish.specs.ChangesSince.{IsLegal};
ghost use Rattle.hc_publish.specs.Seats.{known, seat_origin, noted_changes, note_origin};
ghost use Rattle.hc_publish.specs.Looks.{shown, view_origin};

use super::Seat;
use crate::publisher::Note;
use crate::rule::Looks;
use crate::view::View;

impl Seat {
    /// Views what is published now: a legal list that begins with all that the seat saw or learnt. Returns the seat unchanged
    /// if there is no entry. It allocates nothing and waits for nobody.
    pub fn view(self) -> Result<View, Seat>
        ensures begins { MatchResult result (λ view. IsPrefix (known self) (shown view)) (λ seat. known seat ≡ known self) }
        ensures legal { IfOk result (λ view. IsLegal view.changes_since) }
        ensures origin { MatchResult result (λ view. view_origin view ≡ seat_origin self) (λ seat. seat_origin seat ≡ seat_origin self) }
        ensures task { MatchResult result (λ view. view.task ≡ self.task) (λ seat. seat.task ≡ self.task) }
    {
        let Seat {
            task,
            reader,
            front,
        } = self;
        match reader.enter_as::<Looks>() {
            Ok(reading) => {
                if front.is_within(&reading.get().front) {
                    Ok(View { task, reading })
                } else {
                    Err(Seat {
                        task,
                        reader: reading.leave(),
                        front,
                    })
                }
            }
            Err(reader) => Err(Seat {
                task,
                reader,
                front,
            }),
        }
    }

    /// Views exactly what a note carries, if that is still published: the publisher has not published since. Returns the seat
    /// unchanged if there is no entry, or if something else is published. It allocates nothing and waits for nobody.
    pub fn view_of(self, note: &Note) -> Result<View, Seat>
        requires { note_origin note.now ≡ seat_origin self }
        ensures exact { MatchResult result (λ view. shown view ≡ noted_changes note.now) (λ seat. known seat ≡ known self) }
        ensures begins { IfOk result (λ view. IsPrefix (known self) (shown view)) }
        ensures legal { IfOk result (λ view. IsLegal view.changes_since) }
        ensures origin { MatchResult result (λ view. view_origin view ≡ seat_origin self) (λ seat. seat_origin seat ≡ seat_origin self) }
        ensures task { MatchResult result (λ view. view.task ≡ self.task) (λ seat. seat.task ≡ self.task) }
    {
        let front = self.front.again();
        let view = self.view()?;
        if view.is_of(note) {
            return Ok(view);
        }
        let Seat {
            task,
            reader,
            front: _,
        } = view.leave();
        Err(Seat {
            task,
            reader,
            front,
        })
    }

    /// Learns the published changes that a note of the seat's publisher names. Of the changes that the seat knew and those of
    /// the note, one list begins with the other, and the seat then knows the longer one. It allocates nothing and waits for
    /// nobody.
    pub fn learn(&mut self, note: Note)
        requires { note_origin note ≡ seat_origin self.old }
        ensures one { (known self.new ≡ known self.old) ⊎ (known self.new ≡ noted_changes note) }
        ensures own { IsPrefix (known self.old) (known self.new) }
        ensures changes_since { IsPrefix (noted_changes note) (known self.new) }
        ensures same { (seat_origin self.new ≡ seat_origin self.old) × (self.new.task ≡ self.old.task) }
    {
        if self.front.is_within(&note.front) {
            self.front = note.front;
        }
    }
}

//! Publishing: changes go from the core to the views.
ghost use Rattle.std.specs.Prelude.{◌≡◌, [], ◌++◌, OnErr, OnOk, reverse};
ghost use Rattle.hc_conductor.specs.Conducting.{changes_with, IsConducting, PublishesAll, all_taken, conductor_origin, core_history, conductor_pending, conductor_published};
ghost use mathlib.Core.List.{IsPrefix};
ghost use Rattle.hc_events.specs.Changes.{AreLegal};
ghost use Rattle.hc_publish.specs.PublishedState as published_state;
ghost use Rattle.hc_publish.specs.Seats.{noted_changes, note_origin};

use crate::conductor::Conductor;
use hc_core::keeping::Core;
use hc_events::change::Change;
use hc_publish::publisher::{Kept, Note, Publisher};
use hc_records::limits::{MOST_DATAGRAMS, TASKS};
use std::alloc::{AllocError, Global};
use std::mem;
use std::sync::Wait;

/// Appends changes from the back of the list until it is empty. `AllocError` if an allocation fails; the change then goes back
/// to the list's end.
fn append_all(publisher: &mut Publisher, waiting: &mut Vec<Change>) -> Result<(), AllocError>
    requires { AreLegal (published_state.origin_of publisher.old).groups (changes_with publisher.old waiting.old.items) }
    ensures published { published_state.published publisher.new ≡ published_state.published publisher.old }
    ensures origin { published_state.origin_of publisher.new ≡ published_state.origin_of publisher.old }
    ensures all { published_state.pending publisher.new ++ reverse waiting.new.items ≡ published_state.pending publisher.old ++ reverse waiting.old.items }
    ensures whole { OnOk result (waiting.new.items ≡ []) }
{
    while let Some(change) = waiting.pop() {
        if let Err(Kept(change)) = publisher.append(change) {
            waiting.push_reserved(change);
            return Err(AllocError);
        }
    }
    Ok(())
}

/// Returns the buffers of good answers that both copies have applied to the core, which uses them for the next answers. A line
/// has at most 16 datagrams in each of eight tasks, which bounds their number.
fn give_back(publisher: &Publisher, core: &mut Core)
    ensures { core.new ≡ core.old }
{
    for _ in 0..MOST_DATAGRAMS * TASKS as usize {
        let Some(good) = publisher.spare() else {
            return;
        };
        core.give_back(good.into_bytes());
    }
}

impl Conductor {
    /// Appends the waiting changes, in order. `AllocError` if an allocation fails; the rest then waits.
    fn append(&mut self) -> Result<(), AllocError>
        ensures core { self.new.core ≡ self.old.core }
        ensures published { conductor_published self.new ≡ conductor_published self.old }
        ensures origin { conductor_origin self.new ≡ conductor_origin self.old }
        ensures all { all_taken self.new ≡ all_taken self.old }
        ensures whole { OnOk result (self.new.waiting ≡ []) }
        ensures rings { self.new.rings ≡ self.old.rings }
        ensures conducting { IsConducting self.new }
    {
        append_all(&mut self.publisher, &mut self.waiting)
    }

    /// Takes the core's changes. No change may wait.
    fn take_changes(&mut self, alloc: Global)
        requires { self.old.waiting ≡ [] }
        ensures core { self.new.core ≡ record { history = core_history self.old; taken = core_history self.old } }
        ensures published_state { self.new.published_state ≡ self.old.published_state }
        ensures more { IsPrefix (all_taken self.old) (all_taken self.new) }
        ensures rings { self.new.rings ≡ self.old.rings }
    {
        let spare = mem::replace(&mut self.waiting, Vec::new(alloc));
        let mut changes = self.core.take_changes_into(spare);
        changes.reverse();
        self.waiting = changes;
    }

    /// Publishes everything that was appended. No change may wait. `AllocError` if an allocation fails; then what is shown is
    /// unchanged.
    fn show<R: Wait>(&mut self, rt: &R) -> Result<(), AllocError>
        requires { self.old.waiting ≡ [] }
        ensures core { self.new.core ≡ self.old.core }
        ensures origin { conductor_origin self.new ≡ conductor_origin self.old }
        ensures waiting { self.new.waiting ≡ [] }
        ensures all { all_taken self.new ≡ all_taken self.old }
        ensures shown { OnOk result (conductor_pending self.new ≡ []) }
        ensures unchanged { OnErr result (conductor_published self.new ≡ conductor_published self.old) }
        ensures rings { self.new.rings ≡ self.old.rings }
        ensures conducting { IsConducting self.new }
    {
        self.publisher.publish(rt)
    }

    /// Publishes all changes of the core's events so far: first those that wait from an earlier call, then those since the
    /// core's changes were last taken. Views that begin later show them. After `Ok` the published list gives all updates of the
    /// core's record. It waits while a view of the old copy lives. `AllocError` if an allocation fails: nothing new is
    /// published, no change is lost or published twice, and the next call continues.
    pub fn publish<R: Wait>(&mut self, rt: &R, alloc: Global) -> Result<(), AllocError>
        ensures record { core_history self.new ≡ core_history self.old }
        ensures origin { conductor_origin self.new ≡ conductor_origin self.old }
        ensures rings { self.new.rings ≡ self.old.rings }
        ensures all { IsPrefix (all_taken self.old) (all_taken self.new) }
        ensures conducting { IsConducting self.new }
        ensures publishes { OnOk result (PublishesAll self.new) }
        ensures shown { OnOk result (conductor_published self.new ≡ all_taken self.new) }
        ensures unchanged { OnErr result (conductor_published self.new ≡ conductor_published self.old) }
    {
        self.append()?;
        self.take_changes(alloc);
        self.append()?;
        self.show(rt)?;
        give_back(&self.publisher, &mut self.core);
        Ok(())
    }

    /// Returns a note of what is published, which each seat of this conductor can learn.
    pub fn note(&self) -> Note
        ensures carried { noted_changes result ≡ conductor_published self.now }
        ensures origin { note_origin result ≡ conductor_origin self.now }
    {
        self.publisher.note()
    }

    /// Returns the core, whose record is the conductor's. The changes that were taken from it give the updates of its record as
    /// it was then (`conducting`).
    pub fn core(&self) -> &Core
        ensures core { result.now ≡ self.now.core }
        ensures conducting { IsConducting self.now }
    {
        &self.core
    }

    /// Ends the conductor; it has no other end. It waits for the views that live, and allocates nothing. Seats that remain get
    /// no view any more, and their posts are never taken.
    pub fn finish<R: Wait>(self, rt: &R) {
        let Conductor {
            core: _,
            publisher,
            waiting: _,
            rings: _,
        } = self;
        publisher.finish(rt);
    }
}

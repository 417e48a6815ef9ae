//! `step` and `run`: the serving of events.
ghost use Rattle.std.specs.Prelude.{◌≡◌, All, IfOk, OnErr, map};
ghost use Rattle.hc_events.specs.Calls.{AreSentTogether, MayAnswer};
ghost use Rattle.hc_events.specs.Steps.{Arrives, Clears, Edits, Forgets, Posts, PostsSteady, Reads, SendsFurther, SendsReady, SendsTasks, SendsWrite, SendsWrites, Unplugs, step_of};
ghost use Rattle.hc_core.specs.Early.{ShowsEarly};
ghost use Rattle.hc_core.specs.Lines.{IsLineAfter};
ghost use Rattle.hc_core.specs.LastData.{GoesWithoutThem, IsAsWithoutStale, ReadsShowLastData, StaleLeavesNothing, TasksReadLastData};
ghost use Rattle.hc_core.specs.Serving.{IsAsked, MayAnswerAll, answer_of, answer_of_clear, answer_of_edit, answer_of_forget, answer_of_post, answer_of_unplug, answer_or_memory};

use crate::keeping::Core;
use hc_events::answer::Answer;
use hc_events::event::Event;
use hc_events::faults::CoreFault;
use hc_records::edit::Edit;
use hc_records::faults::EditFault;
use std::alloc::{AllocError, Global};

/// Returns the answer of a call, or a refusal with its fault.
fn answer_of(returned: Result<Answer, CoreFault>) -> Answer
    ensures { result ≡ answer_of returned }
{
    match returned {
        Ok(returned) => returned,
        Err(fault) => Answer::Refused(fault),
    }
}

/// Returns the answer to a post, from the result of its call.
fn answer_of_post(returned: Result<(), CoreFault>) -> Answer
    ensures { result ≡ answer_of_post returned }
{
    match returned {
        Ok(()) => Answer::Posted,
        Err(fault) => Answer::Refused(fault),
    }
}

/// Returns the answer to forgetting a slave, from the result of its call.
fn answer_of_forget(returned: Result<(), CoreFault>) -> Answer
    ensures { result ≡ answer_of_forget returned }
{
    match returned {
        Ok(()) => Answer::Forgotten,
        Err(fault) => Answer::Refused(fault),
    }
}

/// Returns the answer to clearing a slave, from the result of its call.
fn answer_of_clear(returned: Result<(), CoreFault>) -> Answer
    ensures { result ≡ answer_of_clear returned }
{
    match returned {
        Ok(()) => Answer::Cleared,
        Err(fault) => Answer::Refused(fault),
    }
}

/// Returns the answer to unplugging a slave, from the result of its call.
fn answer_of_unplug(returned: Result<(), CoreFault>) -> Answer
    ensures { result ≡ answer_of_unplug returned }
{
    match returned {
        Ok(()) => Answer::Unplugged,
        Err(fault) => Answer::Refused(fault),
    }
}

/// Returns the answer to an edit, from the result of its call.
fn answer_of_edit(returned: Result<Answer, EditFault>) -> Answer
    ensures { result ≡ answer_of_edit returned }
{
    match returned {
        Ok(returned) => returned,
        Err(fault) => Answer::Refused(CoreFault::from(fault)),
    }
}

/// Returns the answer of a call, or a refusal with `Memory`.
fn answer_or_memory(returned: Result<Answer, AllocError>) -> Answer
    ensures { result ≡ answer_or_memory returned }
{
    match returned {
        Ok(returned) => returned,
        Err(_) => Answer::Refused(CoreFault::Memory),
    }
}

impl Core {
    /// Serves an edit. It is a function of its own in the built code too, so that no other event pays for its locals.
    #[inline(never)]
    fn serve_edit(&mut self, alloc: Global, edit: &Edit) -> Answer
        ensures answer { MayAnswer self.old.history (Edits edit.now) result self.new.history }
        ensures early { ShowsEarly self.old.history (Edits edit.now) result }
        ensures taken { self.new.taken ≡ self.old.taken }
    {
        answer_of_edit(self.edit(alloc, edit))
    }

    /// Serves a post.
    fn serve_post(&mut self, task: u8, epoch: u32, bytes: &[u8]) -> Answer
        ensures answer { MayAnswer self.old.history (Posts task epoch bytes.now) result self.new.history }
        ensures early { ShowsEarly self.old.history (Posts task epoch bytes.now) result }
        ensures taken { self.new.taken ≡ self.old.taken }
    {
        answer_of_post(self.post(task, epoch, bytes))
    }

    /// Serves a steady post.
    fn serve_post_steady(&mut self, task: u8, epoch: u32, bytes: &[u8]) -> Answer
        ensures answer { MayAnswer self.old.history (PostsSteady task epoch bytes.now) result self.new.history }
        ensures early { ShowsEarly self.old.history (PostsSteady task epoch bytes.now) result }
        ensures taken { self.new.taken ≡ self.old.taken }
    {
        answer_of_post(self.post_steady(task, epoch, bytes))
    }

    /// Serves a sending of tasks.
    fn serve_tasks(&mut self, alloc: Global, tasks: &[u8]) -> Answer
        requires { AreSentTogether tasks.now }
        ensures answer { MayAnswer self.old.history (SendsTasks tasks.now) result self.new.history }
        ensures early { ShowsEarly self.old.history (SendsTasks tasks.now) result }
        ensures taken { self.new.taken ≡ self.old.taken }
    {
        answer_of(self.send(alloc, tasks))
    }

    /// Serves a register write.
    fn serve_write(&mut self, alloc: Global) -> Answer
        ensures answer { MayAnswer self.old.history SendsWrite result self.new.history }
        ensures early { ShowsEarly self.old.history SendsWrite result }
        ensures taken { self.new.taken ≡ self.old.taken }
    {
        answer_of(self.write(alloc))
    }

    /// Serves several register writes in one frame.
    fn serve_writes(&mut self, alloc: Global) -> Answer
        ensures answer { MayAnswer self.old.history SendsWrites result self.new.history }
        ensures early { ShowsEarly self.old.history SendsWrites result }
        ensures taken { self.new.taken ≡ self.old.taken }
    {
        answer_of(self.write_all(alloc))
    }

    /// Serves further register writes in one frame.
    fn serve_further(&mut self, alloc: Global) -> Answer
        ensures answer { MayAnswer self.old.history SendsFurther result self.new.history }
        ensures early { ShowsEarly self.old.history SendsFurther result }
        ensures taken { self.new.taken ≡ self.old.taken }
    {
        answer_of(self.write_further(alloc))
    }

    /// Serves an arrival.
    fn serve_arrival(&mut self, alloc: Global, bytes: &[u8]) -> Answer
        ensures answer { MayAnswer self.old.history (Arrives bytes.now) result self.new.history }
        ensures early { ShowsEarly self.old.history (Arrives bytes.now) result }
        ensures taken { self.new.taken ≡ self.old.taken }
    {
        answer_or_memory(self.arrive(alloc, bytes))
    }

    /// Serves a read.
    fn serve_read(&self, alloc: Global, task: u8) -> Answer
        ensures answer { MayAnswer self.now.history (Reads task) result self.now.history }
        ensures early { ShowsEarly self.now.history (Reads task) result }
    {
        answer_or_memory(self.read(alloc, task))
    }

    /// Serves the forgetting of a slave.
    fn serve_forget(&mut self, station: u16) -> Answer
        ensures answer { MayAnswer self.old.history (Forgets station) result self.new.history }
        ensures early { ShowsEarly self.old.history (Forgets station) result }
        ensures taken { self.new.taken ≡ self.old.taken }
    {
        answer_of_forget(self.forget(station))
    }

    /// Serves a sending of ready tasks.
    fn serve_ready(&mut self, alloc: Global, tasks: &[u8]) -> Answer
        requires { AreSentTogether tasks.now }
        ensures answer { MayAnswer self.old.history (SendsReady tasks.now) result self.new.history }
        ensures early { ShowsEarly self.old.history (SendsReady tasks.now) result }
        ensures taken { self.new.taken ≡ self.old.taken }
    {
        answer_of(self.send_ready(alloc, tasks))
    }

    /// Serves the clearing of a slave.
    fn serve_clear(&mut self, station: u16) -> Answer
        ensures answer { MayAnswer self.old.history (Clears station) result self.new.history }
        ensures early { ShowsEarly self.old.history (Clears station) result }
        ensures taken { self.new.taken ≡ self.old.taken }
    {
        answer_of_clear(self.cleared(station))
    }

    /// Serves the unplugging of a slave.
    fn serve_unplug(&mut self, station: u16) -> Answer
        ensures answer { MayAnswer self.old.history (Unplugs station) result self.new.history }
        ensures early { ShowsEarly self.old.history (Unplugs station) result }
        ensures taken { self.new.taken ≡ self.old.taken }
    {
        answer_of_unplug(self.unplugged(station))
    }

    /// Serves an event. The answer is that of the definition (`answer_to`) for the history of accepted events, and an accepted
    /// event other than a read is recorded. Exception: an event that allocates may answer `Memory`; nothing has changed then.
    /// Tasks that are sent together are 1 to 8 and distinct. These faults are judged before memory is allocated, and reported
    /// even if it is short (`early_fault`):
    ///
    /// - of an edit, a fault that it has by itself, one of 1 to 11;
    /// - of tasks to be sent, that a task does not exist, that blocks are owed, or that one waits;
    /// - of an arrival, that it cannot be read as a frame;
    /// - of a write, a read, a post, or a slave to be forgotten, cleared or unplugged, every fault.
    ///
    /// An arrival answered `Stale` leaves nothing: every later answer, and all data that tasks read, are as if it had not come.
    pub fn step(&mut self, alloc: Global, event: Event<'_>) -> Answer
        requires { IsAsked (step_of event) }
        ensures answer { MayAnswer self.old.history (step_of event.entry) result self.new.history }
        ensures early { ShowsEarly self.old.history (step_of event.entry) result }
        ensures stale { StaleLeavesNothing self.old.history result self.new.history }
        ensures taken { self.new.taken ≡ self.old.taken }
    {
        match event {
            Event::Edit(edit) => self.serve_edit(alloc, edit),
            Event::SendWrite => self.serve_write(alloc),
            Event::SendWrites => self.serve_writes(alloc),
            Event::Arrive(bytes) => self.serve_arrival(alloc, bytes),
            Event::Read(task) => self.serve_read(alloc, task),
            Event::SendTasks(tasks) => self.serve_tasks(alloc, tasks),
            Event::Post { task, epoch, bytes } => self.serve_post(task, epoch, bytes),
            Event::PostSteady { task, epoch, bytes } => self.serve_post_steady(task, epoch, bytes),
            Event::Forget(station) => self.serve_forget(station),
            Event::SendReady(tasks) => self.serve_ready(alloc, tasks),
            Event::Cleared(station) => self.serve_clear(station),
            Event::Unplugged(station) => self.serve_unplug(station),
            Event::SendFurther => self.serve_further(alloc),
        }
    }

    /// Serves events one after another. The list of answers is allocated first.
    fn serve_all(&mut self, alloc: Global, events: &[Event<'_>]) -> Result<Vec<Answer>, AllocError>
        requires { All (λ event. IsAsked (step_of event)) events.now }
        ensures answers { IfOk result (λ answers. MayAnswerAll self.old.history (map step_of events.now) answers.items self.new.history) }
        ensures taken { self.new.taken ≡ self.old.taken }
        ensures unchanged { OnErr result (self.new ≡ self.old) }
    {
        let mut answers = Vec::with_capacity(alloc, events.len())?;
        for event in events {
            let answer = self.step(alloc, *event);
            answers.push_reserved(answer);
        }
        Ok(answers)
    }

    /// Serves events one after another, each as `step` does. The list of answers is allocated first: after `AllocError` no
    /// event was served, and nothing has changed.
    ///
    /// The line after the events is the one that the edits among them lead to; a refused edit changes nothing. `plan` then
    /// returns the plan that configuring that line from nothing makes. A task reads, for each datagram that it has in the
    /// present line, the data of the last good answer in the present epoch, or none if there was none. This holds between the
    /// events (`shown`) and after them (`reads`). That answer's frame was sent in a line with the same places. A stale frame
    /// changes nothing: later answers are as if none had come. Without the events answered `Stale` or refused with `Memory` the
    /// others have the same answers, and lead to a history that says the same (`without`).
    pub fn run(&mut self, alloc: Global, events: &[Event<'_>]) -> Result<Vec<Answer>, AllocError>
        requires { All (λ event. IsAsked (step_of event)) events.now }
        ensures answers { IfOk result (λ answers. MayAnswerAll self.old.history (map step_of events.now) answers.items self.new.history) }
        ensures line { IfOk result (λ answers. IsLineAfter self.old.history (map step_of events.now) answers.items self.new.history) }
        ensures shown { IfOk result (λ answers. ReadsShowLastData self.old.history (map step_of events.now) answers.items) }
        ensures reads { TasksReadLastData self.new.history }
        ensures stale { IsAsWithoutStale self.new.history }
        ensures without { IfOk result (λ answers. GoesWithoutThem self.old.history (map step_of events.now) answers.items self.new.history) }
        ensures taken { self.new.taken ≡ self.old.taken }
        ensures unchanged { OnErr result (self.new ≡ self.old) }
    {
        self.serve_all(alloc, events)
    }
}

//! Events of the core, one by one.
ghost use Rattle.std.specs.Prelude.{◌≡◌, ◌≢◌, [], ◌∷◌, Err, IfErr, IfOk, IfSome, None, Ok, OnErr, OnOk, Some, length, option_map};
ghost use Rattle.hc_records.specs.Lists.{lowest};
ghost use Rattle.hc_frames.specs.Arrived.{fault_in};
ghost use Rattle.hc_events.specs.declared.answer.Arrived.TheVariants.{Answered, Written};
ghost use Rattle.hc_events.specs.declared.faults.CoreFault.TheVariants.{Memory};
ghost use Rattle.hc_events.specs.Calls.{MayAnswer, further_into_faults, write_all_into_faults, write_into_faults};
ghost use Rattle.hc_events.specs.Entries.{Forgot, Unplugged};
ghost use Rattle.hc_events.specs.Faults.{frame_refusal};
ghost use Rattle.hc_events.specs.Outcomes.{arrived_answer};
ghost use Rattle.hc_events.specs.Ready.{with_cleared};
ghost use Rattle.hc_events.specs.Steps.{Arrives, Edits, SendsFurther, SendsWrite, SendsWrites, answer_to, clear_faults, entries_after, forget_faults, step_of, unplug_faults};
ghost use Rattle.hc_core.specs.Early.{ShowsEarly};
ghost use Rattle.hc_core.specs.Serving.{IsAsked};
ghost use Rattle.hc_core.specs.Written.{HoldsFurther, HoldsWrite, HoldsWrites};
ghost use Rattle.hc_conductor.specs.Conducting.{SameLists, core_history};

use crate::conductor::Conductor;
use hc_core::writing::SentWrites;
use hc_events::answer::{Answer, Arrived, Outcome};
use hc_events::event::Event;
use hc_events::faults::CoreFault;
use hc_records::edit::Edit;
use std::alloc::Global;

impl Conductor {
    /// Hands an event to the core, and returns the core's answer.
    fn step(&mut self, alloc: Global, event: Event<'_>) -> Answer
        requires { IsAsked (step_of event) }
        ensures answer { MayAnswer (core_history self.old) (step_of event.entry) result (core_history self.new) }
        ensures early { ShowsEarly (core_history self.old) (step_of event.entry) result }
        ensures lists { SameLists self.old self.new }
    {
        self.core.step(alloc, event)
    }

    /// Edits the line. The answer and the record are those of the core's `step`. With `Refused`, which has the fault, 1 to 13,
    /// or `Memory`, nothing has changed. Views show the edit after the next publishing.
    pub fn edit(&mut self, alloc: Global, edit: &Edit) -> Answer
        ensures answer { MayAnswer (core_history self.old) (Edits edit.now) result (core_history self.new) }
        ensures early { ShowsEarly (core_history self.old) (Edits edit.now) result }
        ensures lists { SameLists self.old self.new }
    {
        self.step(alloc, Event::Edit(edit))
    }

    /// Takes an arriving frame, any bytes. The answer and the record are those of the core's `step`. With `Refused`, which has
    /// the fault, 20 to 27, or `Memory`, nothing has changed. Views show the new data after the next publishing.
    pub fn arrive(&mut self, alloc: Global, bytes: &[u8]) -> Answer
        ensures answer { MayAnswer (core_history self.old) (Arrives bytes.now) result (core_history self.new) }
        ensures early { ShowsEarly (core_history self.old) (Arrives bytes.now) result }
        ensures lists { SameLists self.old self.new }
    {
        self.step(alloc, Event::Arrive(bytes))
    }

    /// Takes an arriving frame as `arrive` does, and stores the outcome of each datagram in a list that is used again (the
    /// core's `arrive_into`). The list is empty if the frame answers neither tasks nor several register writes. The data of
    /// good answers use the buffers of answers that no view needs any more, as long as there are some.
    pub fn arrive_into(
        &mut self,
        alloc: Global,
        bytes: &[u8],
        outcomes: &mut Vec<Outcome>,
    ) -> Result<Arrived, CoreFault>
        ensures answer { IfOk result (λ arrived. arrived_answer arrived outcomes.new.items ≡ answer_to (core_history self.old) (Arrives bytes.now)) }
        ensures entries { OnOk result (core_history self.new ≡ entries_after (core_history self.old) (Arrives bytes.now)) }
        ensures refused { IfErr result (λ fault. fault ≢ Memory → option_map frame_refusal (fault_in bytes.now) ≡ Some fault) }
        ensures early { IfSome (fault_in bytes.now) (λ fault. result ≡ Err (frame_refusal fault)) }
        ensures none { result ≢ Ok Answered → result ≢ Ok Written → outcomes.new.items ≡ [] }
        ensures lists { SameLists self.old self.new }
        ensures unchanged { OnErr result (self.new ≡ self.old) }
    {
        self.core.arrive_into(alloc, bytes, outcomes)
    }

    /// Writes the frame of the first owed register block to the front of `out`, records it as sent, and returns its length in
    /// bytes. It allocates nothing. Fails with the first of these; then nothing has changed, and no event is recorded:
    ///
    /// - `NothingOwed`: no block is owed.
    /// - `SerialsSpent`: no serial is left.
    /// - `Room`: `out` is too short, with the length needed in bytes.
    pub fn next_write(&mut self, out: &mut [u8]) -> Result<usize, CoreFault>
        ensures written { IfOk result (HoldsWrite (core_history self.old) out.old out.new) }
        ensures accepted { OnOk result (lowest (write_into_faults (core_history self.old) (length out.old)) ≡ None) }
        ensures entries { OnOk result (core_history self.new ≡ entries_after (core_history self.old) SendsWrite) }
        ensures lists { SameLists self.old self.new }
        ensures refused { IfErr result (λ fault. lowest (write_into_faults (core_history self.old) (length out.old)) ≡ Some fault) }
        ensures unchanged { OnErr result (self.new ≡ self.old) }
        ensures untouched { OnErr result (out.new ≡ out.old) }
    {
        self.core.write_into(out)
    }

    /// Sends the first owed register blocks in one frame, in the order in which they are owed: as many as a frame holds,
    /// whatever the length of `out`. Returns the frame's length and the number of its blocks, at most 74; the frame is at the
    /// front of `out`. A frame of one block is that of `next_write` (ETG.1000.4, 5.3 and 5.4; this project's profile). It
    /// allocates nothing. Fails with the first of these; then nothing has changed, and no event is recorded:
    ///
    /// - `NothingOwed`: no block is owed.
    /// - `SerialsSpent`: no serial is left.
    /// - `Room`: `out` is too short, with the length needed in bytes.
    pub fn next_writes(&mut self, out: &mut [u8]) -> Result<SentWrites, CoreFault>
        ensures written { IfOk result (HoldsWrites (core_history self.old) out.old out.new) }
        ensures accepted { OnOk result (lowest (write_all_into_faults (core_history self.old) (length out.old)) ≡ None) }
        ensures entries { OnOk result (core_history self.new ≡ entries_after (core_history self.old) SendsWrites) }
        ensures lists { SameLists self.old self.new }
        ensures refused { IfErr result (λ fault. lowest (write_all_into_faults (core_history self.old) (length out.old)) ≡ Some fault) }
        ensures unchanged { OnErr result (self.new ≡ self.old) }
        ensures untouched { OnErr result (out.new ≡ out.old) }
    {
        self.core.write_all_into(out)
    }

    /// Sends the first owed register blocks that are not under way in one frame, in the order in which they are owed: as many
    /// as a frame holds, whatever the length of `out`. A block is under way as long as the answer to its last write may still
    /// come; `next_writes` sends it again. Returns the frame's length and the number of its blocks, at most 74; the frame is at
    /// the front of `out` (ETG.1000.4, 5.3 and 5.4; this project's profile). It allocates only if none of the slots for such
    /// frames is free at the call, two slots from the opening on and one more after each allocation. Fails with the first of
    /// these; then nothing has changed, and no event is recorded:
    ///
    /// - `NothingOwed`: no block is owed.
    /// - `UnderWay`: each owed block is under way.
    /// - `SerialsSpent`: no serial is left.
    /// - `Room`: `out` is too short, with the length needed in bytes.
    /// - `Memory`: an allocation failed.
    pub fn next_further(&mut self, alloc: Global, out: &mut [u8]) -> Result<SentWrites, CoreFault>
        ensures written { IfOk result (HoldsFurther (core_history self.old) out.old out.new) }
        ensures accepted { OnOk result (lowest (further_into_faults (core_history self.old) (length out.old)) ≡ None) }
        ensures entries { OnOk result (core_history self.new ≡ entries_after (core_history self.old) SendsFurther) }
        ensures lists { SameLists self.old self.new }
        ensures refused { IfErr result (λ fault. fault ≢ Memory → lowest (further_into_faults (core_history self.old) (length out.old)) ≡ Some fault) }
        ensures early { IfSome (lowest (further_into_faults (core_history self.old) (length out.old))) (λ fault. result ≡ Err fault) }
        ensures unchanged { OnErr result (self.new ≡ self.old) }
        ensures untouched { OnErr result (out.new ≡ out.old) }
    {
        self.core.write_further_into(alloc, out)
    }

    /// Notes that the slave with a station address may have lost its registers: all its blocks are owed, and answers to earlier
    /// writes confirm nothing (the core's `forget`). Views do not show it. It allocates nothing. Fails with one of these; then
    /// nothing has changed:
    ///
    /// - `UnknownStation`: no declared slave has the address.
    /// - `Absent`: the slave is not in the line.
    pub fn forget(&mut self, station: u16) -> Result<(), CoreFault>
        ensures accepted { OnOk result (lowest (forget_faults (core_history self.old) station) ≡ None) }
        ensures entries { OnOk result (core_history self.new ≡ Forgot station ∷ core_history self.old) }
        ensures lists { SameLists self.old self.new }
        ensures refused { IfErr result (λ fault. lowest (forget_faults (core_history self.old) station) ≡ Some fault) }
        ensures unchanged { OnErr result (self.new ≡ self.old) }
    {
        self.core.forget(station)
    }

    /// Notes that the FMMUs of the declared slave with a station address are zeros, and that no write sent to it earlier can
    /// still reach it (the core's `cleared`). The blocks of a slave in the line are owed again. Views do not show it. It
    /// allocates nothing. Fails with `UnknownStation` if no declared slave has the address; then nothing has changed.
    pub fn cleared(&mut self, station: u16) -> Result<(), CoreFault>
        ensures accepted { OnOk result (lowest (clear_faults (core_history self.old) station) ≡ None) }
        ensures entries { OnOk result (core_history self.new ≡ with_cleared (core_history self.old) station) }
        ensures lists { SameLists self.old self.new }
        ensures refused { IfErr result (λ fault. lowest (clear_faults (core_history self.old) station) ≡ Some fault) }
        ensures unchanged { OnErr result (self.new ≡ self.old) }
    {
        self.core.cleared(station)
    }

    /// Notes that the declared slave with a station address, outside the line, is off the wire (the core's `unplugged`). Views
    /// do not show it. It allocates nothing. Fails with the first of these; then nothing has changed:
    ///
    /// - `UnknownStation`: no declared slave has the address.
    /// - `AlreadyPresent`: the slave is in the line.
    pub fn unplugged(&mut self, station: u16) -> Result<(), CoreFault>
        ensures accepted { OnOk result (lowest (unplug_faults (core_history self.old) station) ≡ None) }
        ensures entries { OnOk result (core_history self.new ≡ Unplugged station ∷ core_history self.old) }
        ensures lists { SameLists self.old self.new }
        ensures refused { IfErr result (λ fault. lowest (unplug_faults (core_history self.old) station) ≡ Some fault) }
        ensures unchanged { OnErr result (self.new ≡ self.old) }
    {
        self.core.unplugged(station)
    }
}

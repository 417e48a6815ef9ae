//! Two reports of a master on a slave: its FMMUs are zero (`cleared`), or it is off the wire (`unplugged`).
ghost use Rattle.std.specs.Prelude.{◌≡◌, ◌∷◌, IfErr, IfOk, None, OnErr, OnOk, Some, false, slice_get, true};
ghost use Rattle.hc_records.specs.Edits.{is_declared_station};
ghost use Rattle.hc_records.specs.Lists.{lowest};
ghost use Rattle.hc_registers.specs.RankPlaces.{stations};
ghost use Rattle.hc_events.specs.declared.faults.CoreFault.TheVariants.{UnknownStation};
ghost use Rattle.hc_events.specs.Accepted.{IsClearing, IsUnplugging};
ghost use Rattle.hc_events.specs.Entries.{Cleared, Unplugged};
ghost use Rattle.hc_events.specs.Owed.{is_in_line};
ghost use Rattle.hc_events.specs.Points.{state_of};
ghost use Rattle.hc_events.specs.Ready.{with_cleared};
ghost use Rattle.hc_events.specs.Steps.{clear_faults, unplug_faults};
ghost use Rattle.hc_core.specs.Ready.{is_absent};

use crate::keeping::Core;
use hc_events::faults::CoreFault;
use hc_records::faults::EditFault;

/// True if a fault is `Absent`: a declared slave outside the line.
fn is_absent(fault: &EditFault) -> bool
    ensures { result ≡ is_absent fault.now }
{
    matches!(fault, EditFault::Absent)
}

impl Core {
    /// True if the declared slave with this station address is in the line. Fails with `UnknownStation` if no declared slave
    /// has the address.
    fn is_in_line(&self, station: u16) -> Result<bool, CoreFault>
        ensures declared { OnOk result (is_declared_station (state_of self.now.history) station ≡ true) }
        ensures line { IfOk result (λ inside. inside ≡ is_in_line self.now.history station) }
        ensures refused { IfErr result (λ fault. (fault ≡ UnknownStation) × (is_declared_station (state_of self.now.history) station ≡ false)) }
    {
        match self.plan.position(station) {
            Ok(_) => Ok(true),
            Err(fault) if is_absent(&fault) => Ok(false),
            Err(fault) => Err(CoreFault::from(fault)),
        }
    }

    /// The index by rank, from 0, of the declared slave with this station address. It takes the time of the declared slaves.
    pub(crate) fn index_of(&self, station: u16) -> u16
        requires { is_declared_station (state_of self.now.history) station ≡ true }
        ensures { slice_get (stations (state_of self.now.history)) result ≡ Some station }
    {
        let Some(index) = self.owed.index_of(station) else {
            unreachable!()
        };
        index as u16
    }

    /// Records that a slave's FMMUs are zero.
    fn clear(&mut self, station: u16)
        requires { IsClearing self.old.history station }
        ensures { self.new ≡ record self.old { history = Cleared station ∷ self.old.history } }
    {
        let index = self.index_of(station);
        self.readiness.clear(index);
        self.history = self.history.cleared(station);
    }

    /// Records that a slave outside the line is off the wire.
    fn unplug(&mut self, station: u16)
        requires { IsUnplugging self.old.history station }
        ensures { self.new ≡ record self.old { history = Unplugged station ∷ self.old.history } }
    {
        let index = self.index_of(station);
        self.readiness.unplug(index);
        self.history = self.history.unplugged(station);
    }

    /// Records that the FMMUs of the declared slave with this station address are zero, and that no write of them that was sent
    /// earlier will still pass it. The master calls it after a frame of zeros to its FMMUs came back with working counter 1
    /// (`hc_frames::building::build_fmmu_off`), or after the slave powered up. The slave then holds up no task but those of its
    /// own areas, while their blocks are owed. A slave of the line is forgotten too, as `forget` does, since zeros are not what
    /// the line configures. Everything else stays. Fails with `UnknownStation` if no declared slave has the address; nothing
    /// has changed then. It needs no allocation (this project's profile).
    pub fn cleared(&mut self, station: u16) -> Result<(), CoreFault>
        ensures accepted { OnOk result (lowest (clear_faults self.old.history station) ≡ None) }
        ensures entries { OnOk result (self.new ≡ record self.old { history = with_cleared self.old.history station }) }
        ensures refused { IfErr result (λ fault. lowest (clear_faults self.old.history station) ≡ Some fault) }
        ensures unchanged { OnErr result (self.new ≡ self.old) }
    {
        if self.is_in_line(station)? {
            self.forget_known(station);
        }
        self.clear(station);
        Ok(())
    }

    /// Records that the declared slave with this station address, which is outside the line, is off the wire. Its registers
    /// count for nothing until its group is connected again. Everything else stays. Fails with `UnknownStation` if no declared
    /// slave has the address; otherwise with `AlreadyPresent` if the slave is in the line. Nothing has changed then. It needs
    /// no allocation (this project's profile).
    pub fn unplugged(&mut self, station: u16) -> Result<(), CoreFault>
        ensures accepted { OnOk result (lowest (unplug_faults self.old.history station) ≡ None) }
        ensures entries { OnOk result (self.new ≡ record self.old { history = Unplugged station ∷ self.old.history }) }
        ensures refused { IfErr result (λ fault. lowest (unplug_faults self.old.history station) ≡ Some fault) }
        ensures unchanged { OnErr result (self.new ≡ self.old) }
    {
        if self.is_in_line(station)? {
            return Err(CoreFault::AlreadyPresent);
        }
        self.unplug(station);
        Ok(())
    }
}

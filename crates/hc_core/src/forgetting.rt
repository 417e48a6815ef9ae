//! `Core::forget`: a slave that may have lost its registers.
ghost use Rattle.std.specs.Prelude.{◌≡◌, ◌∷◌, IfErr, None, OnErr, OnOk, Some, true};
ghost use Rattle.hc_records.specs.Lists.{lowest};
ghost use Rattle.hc_events.specs.Entries.{Forgot};
ghost use Rattle.hc_events.specs.Owed.{is_in_line};
ghost use Rattle.hc_events.specs.Steps.{forget_faults};

use crate::keeping::Core;
use hc_events::faults::CoreFault;

impl Core {
    /// Forgets the registers of the slave with this station address, which may have lost them, for example by a power cycle.
    /// All its register blocks become owed, and a write to it that was sent before confirms nothing. Everything else stays: the
    /// epoch, the input images, the output values, the changes, the known blocks of other slaves, and the awaited answers of
    /// other slaves and of the tasks. After the next register write, the answers to earlier register writes confirm nothing.
    /// Fails with `UnknownStation` if no declared slave has the address, or with `Absent` if that slave is not in the line;
    /// nothing has changed then. It allocates nothing (this project's profile).
    pub fn forget(&mut self, station: u16) -> Result<(), CoreFault>
        ensures accepted { OnOk result (lowest (forget_faults self.old.history station) ≡ None) }
        ensures entries { OnOk result (self.new ≡ record self.old { history = Forgot station ∷ self.old.history }) }
        ensures refused { IfErr result (λ fault. lowest (forget_faults self.old.history station) ≡ Some fault) }
        ensures unchanged { OnErr result (self.new ≡ self.old) }
    {
        self.plan.position(station)?;
        self.forget_known(station);
        Ok(())
    }

    /// Forgets a slave of the line: nothing is known of its registers any more, and no write to it is awaited.
    pub(crate) fn forget_known(&mut self, station: u16)
        requires { is_in_line self.old.history station ≡ true }
        ensures { self.new ≡ record self.old { history = Forgot station ∷ self.old.history } }
    {
        let index = self.index_of(station);
        self.awaited.forget(station);
        self.owed.forget(station);
        self.readiness.forget(index);
        self.history = self.history.forgot(station);
    }
}

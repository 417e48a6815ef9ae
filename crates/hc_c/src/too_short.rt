//! Refusals of calls that write into a slice from C.
ghost use Rattle.std.specs.Prelude.{◌≡◌, ◌≢◌, ◌<◌, ℕ};
ghost use Rattle.hc_events.specs.declared.faults.CoreFault.TheVariants.{Room};
ghost use Rattle.hc_events.specs.Faults.{core_fault_number};

use crate::numbers::ROOM;
use crate::widths::in_32_bits;
use hc_events::faults::CoreFault;

/// Returns the number of a refusal. With `ROOM` it also writes the length needed.
#[tactic(auto, using(crate::proofs::Rooms::room_alone))]
pub fn refuse(fault: CoreFault, needed: &mut u32) -> u8
    requires { (bytes : ℕ) → fault ≡ Room bytes → bytes < 4294967296 }
    ensures number { result ≡ core_fault_number fault }
    ensures room { result ≡ ROOM → fault ≡ Room needed.new }
    ensures unwritten { result ≢ ROOM → needed.new ≡ needed.old }
{
    if let CoreFault::Room(bytes) = fault {
        *needed = in_32_bits(bytes);
    }
    fault.number()
}

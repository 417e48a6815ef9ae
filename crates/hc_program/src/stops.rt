//! Reasons for which a command is stopped.
ghost use Rattle.std.specs.Prelude.{◌≡◌};
ghost use Rattle.hc_program.specs.Stops.{chain_fault_text, no_entry_text, stop_text, refused_growth_text};

use crate::refusals::memory_refusal;
use hc_conductor::one_thread::refusals::NoEntry;
use hc_segment::ChainFault;
use std::alloc::AllocError;

/// The place of a failed allocation.
#[derive(Clone, Copy, Debug, PartialEq, Eq)]
pub enum RefusedGrowth {
    /// In the command itself.
    Memory,
    /// In passing frames along the line.
    Chain(ChainFault),
}

/// The reason for which a command is stopped.
#[derive(Clone, Copy, Debug, PartialEq, Eq)]
pub enum Stop {
    /// An allocation failed.
    RefusedGrowth(RefusedGrowth),
    /// A seat got no view: there is no entry. It never occurs in practice.
    NoEntry,
}

impl From<AllocError> for RefusedGrowth {
    ghost use Rattle.std.specs.Prelude.{◌≡◌};
    ghost use Rattle.hc_program.specs.declared.stops.RefusedGrowth.TheVariants.{Memory};

    ghost from_gives = { λ _ refused_growth. refused_growth ≡ Memory };

    fn from(_error: AllocError) -> RefusedGrowth {
        RefusedGrowth::Memory
    }
}

impl From<ChainFault> for RefusedGrowth {
    ghost use Rattle.std.specs.Prelude.{◌≡◌};
    ghost use Rattle.hc_program.specs.declared.stops.RefusedGrowth.TheVariants.{Chain};

    ghost from_gives = { λ fault refused_growth. refused_growth ≡ Chain fault };

    fn from(fault: ChainFault) -> RefusedGrowth {
        RefusedGrowth::Chain(fault)
    }
}

impl From<RefusedGrowth> for Stop {
    ghost use Rattle.std.specs.Prelude.{◌≡◌};
    ghost use Rattle.hc_program.specs.declared.stops.Stop.TheVariants as stop;

    ghost from_gives = { λ refused_growth why. why ≡ stop.RefusedGrowth refused_growth };

    fn from(refused_growth: RefusedGrowth) -> Stop {
        Stop::RefusedGrowth(refused_growth)
    }
}

impl From<AllocError> for Stop {
    ghost use Rattle.std.specs.Prelude.{◌≡◌};
    ghost use Rattle.hc_program.specs.declared.stops.Stop.TheVariants as stop;
    ghost use Rattle.hc_program.specs.declared.stops.RefusedGrowth.TheVariants.{Memory};

    ghost from_gives = { λ _ why. why ≡ stop.RefusedGrowth Memory };

    fn from(_error: AllocError) -> Stop {
        Stop::RefusedGrowth(RefusedGrowth::Memory)
    }
}

impl From<NoEntry> for Stop {
    ghost use Rattle.std.specs.Prelude.{◌≡◌};
    ghost use Rattle.hc_program.specs.declared.stops.Stop.TheVariants as stop;

    ghost from_gives = { λ _ why. why ≡ stop.NoEntry };

    fn from(_refusal: NoEntry) -> Stop {
        Stop::NoEntry
    }
}

/// Returns the line of a chain that failed. It is a constant, so no allocation is needed.
#[tactic(auto, unfolding(crate::specs::Stops::chain_fault_text))]
fn chain_refusal(fault: ChainFault) -> &'static [u8]
    ensures { result.now ≡ chain_fault_text fault }
{
    match fault {
        ChainFault::Memory => b"chain fault 1 Memory\n",
    }
}

/// Returns the line of a failed allocation. It is a constant, so no allocation is needed.
fn refused_growth_line(refused_growth: RefusedGrowth) -> &'static [u8]
    ensures { result.now ≡ refused_growth_text refused_growth }
{
    match refused_growth {
        RefusedGrowth::Memory => memory_refusal(),
        RefusedGrowth::Chain(fault) => chain_refusal(fault),
    }
}

/// Returns the line of a seat without a view. It is a constant, so no allocation is needed.
#[tactic(auto, unfolding(crate::specs::Stops::no_entry_text))]
fn no_entry_line() -> &'static [u8]
    ensures { result.now ≡ no_entry_text }
{
    b"refused 7 NoEntry\n"
}

/// Returns the line of a stop. It is a constant, so no allocation is needed.
pub fn stop_line(stop: Stop) -> &'static [u8]
    ensures { result.now ≡ stop_text stop }
{
    match stop {
        Stop::RefusedGrowth(refused_growth) => refused_growth_line(refused_growth),
        Stop::NoEntry => no_entry_line(),
    }
}

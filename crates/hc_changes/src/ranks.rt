//! `Ranks`: the ranks between which all slaves are whose areas an edit may configure in another way.
ghost use Rattle.std.specs.Prelude.{◌≡◌};
ghost use Rattle.hc_records.specs.declared.keys.Key.{Key};

use hc_records::keys::Key;
use hc_records::records::Dir;

/// Ranks from one up to another, both among them; none if the second is lower.
#[derive(Clone, Copy)]
pub(crate) struct Ranks {
    pub(crate) low: u16,
    pub(crate) high: u16,
}

impl Ranks {
    ghost use Rattle.std.specs.Prelude.{◌≡◌, ◌+◌, ◌<◌, ◌≤◌, ℕ};
    ghost use Rattle.hc_records.specs.declared.keys.Key.{Key};
    ghost use Rattle.hc_records.specs.declared.records.Dir.TheVariants.{Out};
    ghost use Rattle.hc_changes.specs.inner.Found.{HoldRanks, LiesBetween};

    /// All ranks.
    const ALL: Ranks = Ranks {
        low: 0,
        high: u16::MAX,
    };

    /// Returns the ranks from one up to another.
    pub(crate) fn of(low: u16, high: u16) -> Ranks
        ensures low { result.low ≡ low }
        ensures high { result.high ≡ high }
    {
        Ranks { low, high }
    }

    /// Returns the ranks of the slaves that may have areas of a task from one key on and before another. Between an output and
    /// an input these are all ranks if the task has inputs, otherwise those from the output's slave on.
    pub(crate) fn between(from: Key, to: Key, inputs: bool) -> Ranks
        ensures { (key : Key) → LiesBetween from to inputs key → (result.low ≤ key.rank) × (key.rank ≤ result.high) }
    {
        match (from.dir, to.dir) {
            (Dir::Out, Dir::In) if inputs => Ranks::ALL,
            (Dir::Out, Dir::In) => Ranks::of(from.rank, u16::MAX),
            _ => Ranks::of(from.rank, to.rank),
        }
    }

    /// Returns these ranks, the others, and those between them.
    pub(crate) fn joined(self, other: Ranks) -> Ranks
        ensures own { HoldRanks result.low result.high self.low self.high }
        ensures others { HoldRanks result.low result.high other.low other.high }
    {
        Ranks {
            low: self.low.min(other.low),
            high: self.high.max(other.high),
        }
    }

    /// Returns the part of so many slaves in a row, from a rank on, whose ranks are among these: the index of the first of
    /// them, and the index after the last.
    pub(crate) fn part(self, first: u16, slaves: usize) -> (usize, usize)
        ensures order { result.0 ≤ result.1 }
        ensures within { result.1 ≤ slaves }
        ensures front { (i : ℕ) → i < result.0 → self.low ≤ first + i → ⊥ }
        ensures after_it { (i : ℕ) → result.1 ≤ i → i < slaves → first + i ≤ self.high → ⊥ }
    {
        let first = usize::from(first);
        let from = usize::from(self.low).saturating_sub(first).min(slaves);
        let to = (usize::from(self.high) + 1)
            .saturating_sub(first)
            .min(slaves);
        (from, to.max(from))
    }
}

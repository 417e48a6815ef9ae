//! `Readiness::held_by`: the slaves that keep a task waiting.
ghost use Rattle.std.specs.Prelude.{◌≡◌, ◌<◌};
ghost use Rattle.std.specs.List.{list_any};
ghost use Rattle.hc_records.specs.declared.limits.TheConstants.{TASKS};
ghost use Rattle.hc_owed.specs.Holders.{area_holds, area_holds_outside};

use crate::area::JudgedArea;
use crate::readiness::Readiness;

impl JudgedArea {
    ghost use Rattle.std.specs.Prelude.{◌≡◌, ◌<◌};
    ghost use Rattle.hc_records.specs.declared.limits.TheConstants.{TASKS};
    ghost use Rattle.hc_owed.specs.Holders.{area_holds, area_holds_outside};

    /// True if one of its owed blocks concerns a task, 0 to 7.
    fn holds(&self, task: u8) -> bool
        requires { task < TASKS }
        ensures { result ≡ area_holds task self.now }
    {
        self.sync_manager_concerns().has(task) || self.fmmu_concerns().has(task)
    }

    /// True if its register concerns a task, 0 to 7, while its slave is outside the line.
    fn holds_outside(&self, task: u8) -> bool
        requires { task < TASKS }
        ensures { result ≡ area_holds_outside task self.now }
    {
        self.register_concerns().has(task)
    }
}

/// True if an owed block of one of these areas concerns a task, 0 to 7.
fn one_holds(areas: &[JudgedArea], task: u8) -> bool
    requires { task < TASKS }
    ensures { result ≡ list_any (area_holds task) areas.now }
{
    for area in areas {
        if area.holds(task) {
            return true;
        }
    }
    false
}

/// True if the register of one of these areas concerns a task, 0 to 7, while its slave is outside the line.
fn one_holds_outside(areas: &[JudgedArea], task: u8) -> bool
    requires { task < TASKS }
    ensures { result ≡ list_any (area_holds_outside task) areas.now }
{
    for area in areas {
        if area.holds_outside(task) {
            return true;
        }
    }
    false
}

impl Readiness {
    ghost use Rattle.std.specs.Prelude.{◌≡◌, ℕ, ◌+◌, ◌*◌, ◌/◌, ◌%◌, ◌<◌, ◌≤◌, Bool, IfSome, MatchOption, None, length, option_map, slice_get};
    ghost use Rattle.hc_records.specs.declared.limits.TheConstants.{TASKS};
    ghost use Rattle.hc_records.specs.Line.{State};
    ghost use Rattle.hc_owed.specs.Flags.{nth_set};
    ghost use Rattle.hc_owed.specs.Holders.{flag_at, flags_of};
    ghost use Rattle.hc_owed.specs.ReadinessLaws.{GivesHolder};
    ghost use Rattle.hc_owed.specs.ReadinessSteps.{IsReadinessFor};
    ghost use Rattle.hc_owed.specs.RegisterState.{Knowledge};

    /// True if a slave holds a task up. The numbers below `slaves` are of the declared slaves by rank, for blocks in the line.
    /// The same slaves have the next `slaves` numbers, for registers outside it.
    fn flag_at(&self, slaves: usize, n: usize, task: u8) -> bool
        requires task { task < TASKS }
        requires slaves { 8 * slaves ≤ length self.now }
        requires low { n < 2 * slaves }
        ensures { result ≡ flag_at task self.now slaves n }
    {
        if n < slaves {
            one_holds(&self.areas[8 * n..8 * n + 8], task)
        } else {
            let index = n - slaves;
            one_holds_outside(&self.areas[8 * index..8 * index + 8], task)
        }
    }

    /// Returns the index by rank, from 0, of the slave number `n`, from 0, among those that a task, 0 to 7, waits for. First
    /// come those of the line, in line order, then those outside it, in declared order. `None` if they are fewer. It takes the
    /// time of the declared slaves.
    pub fn held_by(&self, task: u8, n: u32) -> Option<u16>
        requires { task < TASKS }
        ensures { GivesHolder self.now task n result }
    {
        let found = self.nth_flag(task, n as usize)?;
        let slaves = self.areas.len() / 8;
        if found < slaves {
            return Some(found as u16);
        }
        Some((found - slaves) as u16)
    }

    /// Returns the position of the set flag with number `n`, from 0, among the flags that are set; none if fewer are set.
    fn nth_flag(&self, task: u8, n: usize) -> Option<usize>
        requires { task < TASKS }
        ensures value { result ≡ nth_set n 0 (flags_of task self.now) }
        ensures low { IfSome result (λ found. found < 2 * (length self.now / 8)) }
    {
        let slaves = self.areas.len() / 8;
        let mut left = n;
        for at in 0..2 * slaves {
            if self.flag_at(slaves, at, task) {
                if left == 0 {
                    return Some(at);
                }
                left -= 1;
            }
        }
        None
    }
}

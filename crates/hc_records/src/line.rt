//! The line of a state: the slaves of the groups that are present, in declared order.
ghost use Rattle.std.specs.Prelude.{◌≡◌, ◌<◌, length};
ghost use Rattle.std.specs.Iterator.{YieldsFirst, item_count};
ghost use Rattle.hc_records.specs.Line.{IsCounted, line_from, members_from};

use crate::records::{Declared, Slave};
use std::marker::Model;

/// A slave of the line.
#[derive(Debug, Drop)]
pub struct Member<'a> {
    rank: u16,
    slave: &'a Slave,
}

impl<'a> Model for Member<'a> {
    ghost use Rattle.hc_records.specs.Line.{Member};

    ghost Value = { Member };

    ghost view = { λ member. record { rank = member.rank; slave = member.slave.now } };
}

impl<'a> Member<'a> {
    ghost use Rattle.std.specs.Prelude.{◌≡◌};

    /// Returns the slave's rank: its number among all declared slaves, present or not, from 1.
    pub fn rank(&self) -> u16
        ensures { result ≡ self.now.rank }
    {
        self.rank
    }

    /// Returns the slave's record.
    pub fn slave(&self) -> &'a Slave
        ensures { result.now ≡ self.now.slave }
    {
        self.slave
    }
}

/// The slaves of the line that an iteration has not reached yet, in declared order. Contracts see the list of them.
#[derive(Debug, Drop)]
pub struct LineMembers<'a> {
    // the slaves that are left of the group that the iteration has reached
    slaves: &'a [Slave],
    // the rank of the first of them, or of the first slave after them
    rank: usize,
    // the groups after it
    groups: &'a [Declared],
}

impl<'a> Model for LineMembers<'a> {
    ghost use Rattle.std.specs.Prelude.{◌+◌, ◌≤◌, ◌++◌, List, length, sum_by};
    ghost use Rattle.hc_records.specs.Line.{Member, line_from, members_from};

    ghost Value = { List Member };

    ghost view = { λ left. members_from left.rank left.slaves.now ++ line_from (left.rank + length left.slaves.now) left.groups.now };

    ghost invariant = { λ left. left.rank + length left.slaves.now + sum_by (λ declared. length declared.group.slaves) left.groups.now ≤ 65535 };
}

/// Returns the slaves of the line, in declared order, one by one. The iteration allocates nothing, and each step takes the time
/// of one slave and of the groups passed.
pub fn members(groups: &[Declared]) -> LineMembers<'_>
    requires { IsCounted groups.now }
    ensures value { result ≡ line_from 1 groups.now }
    ensures few { length result < 65535 }
{
    LineMembers {
        slaves: &[],
        rank: 1,
        groups,
    }
}

impl<'a> Iterator for LineMembers<'a> {
    type Item = Member<'a>;

    ghost next_gives = { YieldsFirst (λ left. left) };

    ghost remaining = { item_count (λ left. left) };

    fn next(&mut self) -> Option<Member<'a>> {
        while self.slaves.is_empty() {
            let (declared, after_it) = self.groups.split_first()?;
            if declared.present {
                self.slaves = declared.group.slaves.as_slice();
            } else {
                self.rank += declared.group.slaves.len();
            }
            self.groups = after_it;
        }
        let (slave, after_it) = self.slaves.split_first()?;
        let rank = self.rank as u16;
        self.slaves = after_it;
        self.rank += 1;
        Some(Member { rank, slave })
    }
}

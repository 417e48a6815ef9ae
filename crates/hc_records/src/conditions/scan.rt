//! Scans of a project's records for one that meets a condition, or for two that are related.
ghost use Rattle.std.specs.Prelude.{◌≡◌, Bool};
ghost use Rattle.std.specs.List.{list_any};
ghost use Rattle.hc_records.specs.Lists.{some_pair};
ghost use Rattle.hc_records.specs.Project.{some_area, some_slave};

use crate::records::{Area, Group, Slave};

/// A condition on a record.
pub trait Condition<T> {
    /// The condition as contracts see it: a test of a record.
    ghost condition: { T → Bool };

    /// True if an item meets the condition.
    fn holds(item: &T) -> bool
        ensures { result ≡ condition item.now };
}

/// A relation of an earlier record to a later one.
pub trait Relation<T> {
    /// The relation as contracts see it: a test of an earlier record and a later one.
    ghost relation: { T → T → Bool };

    /// True if an earlier item is related to a later one.
    fn holds(earlier: &T, later: &T) -> bool
        ensures { result ≡ relation earlier.now later.now };
}

/// Returns whether one of the items meets a condition.
pub fn some<T, C: Condition<T>>(items: &[T]) -> bool
    ensures { result ≡ list_any C.condition items.now }
{
    items.iter().any(|item| C::holds(item))
}

/// Returns whether a slave of the project meets a condition.
pub fn some_slave<C: Condition<Slave>>(groups: &[Group]) -> bool
    ensures { result ≡ some_slave C.condition groups.now }
{
    groups
        .iter()
        .any(|group| some::<Slave, C>(group.slaves.as_slice()))
}

/// Returns whether an area of one of the slaves meets a condition.
fn some_area_of<C: Condition<Area>>(slaves: &[Slave]) -> bool
    ensures { result ≡ list_any (λ slave. list_any C.condition slave.areas) slaves.now }
{
    slaves
        .iter()
        .any(|slave| some::<Area, C>(slave.areas.as_slice()))
}

/// Returns whether an area of the project meets a condition.
pub fn some_area<C: Condition<Area>>(groups: &[Group]) -> bool
    ensures { result ≡ some_area C.condition groups.now }
{
    groups
        .iter()
        .any(|group| some_area_of::<C>(group.slaves.as_slice()))
}

/// Returns whether an item is related to one of the later ones.
fn relates_to_any<T, R: Relation<T>>(item: &T, later: &[T]) -> bool
    ensures { result ≡ list_any (R.relation item.now) later.now }
{
    later.iter().any(|other| R::holds(item, other))
}

/// Returns whether two of the items are related, an earlier one to a later one.
pub fn some_pair<T, R: Relation<T>>(items: &[T]) -> bool
    ensures { result ≡ some_pair R.relation items.now }
{
    for i in 0..items.len() {
        if relates_to_any::<T, R>(&items[i], &items[i + 1..]) {
            return true;
        }
    }
    false
}

//! The areas of the line by the ranks of their slaves.
ghost use Rattle.std.specs.Prelude.{◌≡◌, ◌++◌, IfOk, MatchOption, None, OnOk, Some};
ghost use Rattle.hc_cuts.specs.Areas.{area_in, areas_by_rank, present_areas};

use hc_records::keys::Key;
use hc_records::records::{Area, Declared};
use std::alloc::{AllocError, Global};
use std::marker::Model;

/// The areas of a declared slave in the line, in the order of its record; none if its group is not present.
#[derive(Debug, Drop)]
pub struct SlaveAreas<'a> {
    areas: &'a [Area],
}

impl<'a> Model for SlaveAreas<'a> {
    ghost use Rattle.std.specs.Prelude.{List};
    ghost use Rattle.hc_records.specs.declared.records.Area.{Area};

    ghost Value = { List Area };

    ghost view = { λ slave. slave.areas.now };
}

impl<'a> SlaveAreas<'a> {
    ghost use Rattle.std.specs.Prelude.{◌≡◌};

    /// The areas.
    pub fn as_slice(&self) -> &'a [Area]
        ensures { result.now ≡ self.now }
    {
        self.areas
    }
}

/// Appends the areas of each slave of a declared group.
fn add_group<'a>(slaves: &mut Vec<SlaveAreas<'a>>, declared: &'a Declared) -> Result<(), AllocError>
    ensures { OnOk result (slaves.new.items ≡ slaves.old.items ++ present_areas declared.now) }
{
    for slave in declared.group.slaves.as_slice() {
        let areas = if declared.present {
            slave.areas.as_slice()
        } else {
            &[]
        };
        slaves.push(SlaveAreas { areas })?;
    }
    Ok(())
}

/// Returns the areas of each declared slave in the line; the first slave has rank 1. `AllocError` if an allocation fails.
pub fn areas_by_rank<'a>(
    alloc: Global,
    groups: &'a [Declared],
) -> Result<Vec<SlaveAreas<'a>>, AllocError>
    ensures { IfOk result (λ slaves. slaves.items ≡ areas_by_rank groups.now) }
{
    let mut slaves = Vec::new(alloc);
    for declared in groups {
        add_group(&mut slaves, declared)?;
    }
    Ok(slaves)
}

/// Returns the area that a key names: the one with its index in the record of the present slave with its rank. `None` if there
/// is no such area. It allocates nothing.
pub fn find_area<'a>(slaves: &[SlaveAreas<'a>], key: Key) -> Option<&'a Area>
    ensures { MatchOption result (area_in slaves.now key ≡ None) (λ area. area_in slaves.now key ≡ Some area.now) }
{
    if key.rank == 0 {
        return None;
    }
    let slave = slaves.get(usize::from(key.rank) - 1)?;
    slave.areas.get(usize::from(key.area))
}

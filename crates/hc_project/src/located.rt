//! `locate`: the lowest fault of a text that is no project, and the first place of this fault.
ghost use Rattle.std.specs.Prelude.{◌≡◌, IfOk};
ghost use Rattle.toml.specs.View.{view};
ghost use Rattle.hc_project.specs.Located.{LocatesFault, SaysOf, group_location, position_from, location_of};

use crate::levels::read_groups;
use crate::places::{Location, Place};
use crate::reading::Reading;
use crate::repeats::Search;
use crate::searches::{
    Aliases, OverlappingAreas, RepeatedManagers, Stations, UnknownPdos, Variables, WideAreas,
    Within, find_repeat, first_in,
};
use crate::text::settle;
use hc_records::faults::ProjectFault;
use hc_records::items::{Copied, Items};
use hc_records::records::Group;
use std::alloc::{AllocError, Global};
use toml::Value;

/// The reason why a text is no project, and its place.
#[derive(Clone, Copy, Debug, PartialEq, Eq)]
pub enum Found {
    /// It is no TOML document (`NotToml`): the line and the column of the place where `toml` gave up, both counted from 1. A
    /// column counts characters.
    InText {
        /// The line.
        line: usize,
        /// The column.
        column: usize,
    },
    /// Any other fault.
    InProject {
        /// The lowest fault, as `read_project` returns it.
        fault: ProjectFault,
        /// The first place of the fault.
        location: Location,
    },
}

/// The place of a fault from `RepeatedAlias` to `AreaTooBig` in the groups that were read.
fn find_in_project(alloc: Global, fault: ProjectFault, groups: &[Group]) -> Search
    ensures { IfOk result (λ found. found ≡ group_location fault groups.now) }
{
    let document = Place::document();
    match fault {
        ProjectFault::RepeatedAlias => find_repeat::<Group, Aliases>(alloc, document, groups),
        ProjectFault::RepeatedStation => find_repeat::<Group, Stations>(alloc, document, groups),
        ProjectFault::RepeatedSyncManager => {
            first_in::<Group, Within<RepeatedManagers>>(alloc, document, groups)
        }
        ProjectFault::OverlappingAreas => {
            first_in::<Group, Within<OverlappingAreas>>(alloc, document, groups)
        }
        ProjectFault::RepeatedVariable => find_repeat::<Group, Variables>(alloc, document, groups),
        ProjectFault::UnknownPdo => {
            first_in::<Group, Within<Within<UnknownPdos>>>(alloc, document, groups)
        }
        ProjectFault::AreaTooBig => {
            first_in::<Group, Within<Within<WideAreas>>>(alloc, document, groups)
        }
        _ => Ok(None),
    }
}

/// The place of a fault in what was read.
fn find_fault(alloc: Global, fault: ProjectFault, groups: &Reading<Items<Group>>) -> Search
    ensures { IfOk result (λ found. found ≡ location_of fault groups.now) }
{
    match fault {
        ProjectFault::MissingField => Ok(groups.syntax_faults.missing),
        ProjectFault::OutOfRange => Ok(groups.syntax_faults.outside),
        other => find_in_project(alloc, other, groups.value.as_slice()),
    }
}

/// The line and the column after a text.
fn position_after(front: &[u8]) -> (usize, usize)
    ensures { result ≡ position_from (1, 1) front.now }
{
    let mut line = 1usize;
    let mut column = 1usize;
    for byte in front {
        if *byte == b'\n' {
            line += 1;
            column = 1;
        } else if !(128 <= *byte && *byte < 192) {
            column += 1;
        }
    }
    (line, column)
}

/// Returns the lowest fault of a document and its place, or `None` if its groups are a project. A copy is judged, so that the
/// groups that were read remain if they are refused.
fn find_lowest(alloc: Global, document: &Value) -> Result<Option<Found>, AllocError>
    ensures { IfOk result (λ found. SaysOf (view document.now) found) }
{
    let groups = read_groups(alloc, document)?;
    let copy = Reading {
        value: groups.value.copied(alloc)?,
        syntax_faults: groups.syntax_faults,
    };
    let Err(fault) = settle(alloc, copy) else {
        return Ok(None);
    };
    if fault == ProjectFault::Memory {
        return Err(AllocError);
    }
    match find_fault(alloc, fault, &groups)? {
        Some(location) => Ok(Some(Found::InProject { fault, location })),
        None => unreachable!(),
    }
}

/// Returns `None` if `read_project` accepts the text, and otherwise its fault and the fault's first place. Fails with
/// `AllocError`, whatever the text, if an allocation fails.
///
/// Places are ordered as the text orders the items of its arrays, and the keys of a table as docs/use/PROJECT_TEXT.md names
/// them, since a parsed table does not record their order. For two things that may not be together the later one's place
/// counts, and the earliest one that conflicts with it is named too. For too many of something the first one over the limit is
/// reported.
///
/// A text is read once, and repeated names are found in n log n steps.
#[tactic(auto, using(crate::proofs::Texts::unread))]
pub fn locate(alloc: Global, text: &[u8]) -> Result<Option<Found>, AllocError>
    ensures { IfOk result (λ found. LocatesFault text.now found) }
{
    let table = match toml::table_from_slice(alloc, text) {
        Ok(table) => table,
        Err(error) => {
            let Some(span) = error.span() else {
                return Err(AllocError);
            };
            let (line, column) = position_after(&text[..span.start]);
            return Ok(Some(Found::InText { line, column }));
        }
    };
    find_lowest(alloc, &Value::Table(table))
}

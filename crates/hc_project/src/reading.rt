//! `Reading`: a value with the first places of its faults. Every level of a project's text is read to one, so that the lowest
//! fault and its place are known once the whole text is read.
ghost use Rattle.std.specs.Prelude.{◌≡◌, if◌then◌else◌, None, Some};
ghost use Rattle.hc_project.specs.Places.{first_some, place_alone};

use crate::places::{Location, Place};
use std::alloc::AllocError;

/// The faults of a value and of all inside it: the first place of each.
#[derive(Clone, Copy)]
pub struct SyntaxFaults {
    /// The first place with a missing key that is needed, or with a value of another kind.
    pub missing: Option<Location>,
    /// The first place with a value outside its range, or with an array of too many or too few items.
    pub outside: Option<Location>,
}

/// Returns the first of two places if there is one, else the second.
#[tactic(auto, unfolding(crate::specs::Places::first_some))]
pub fn first_some(first: Option<Location>, second: Option<Location>) -> Option<Location>
    ensures { result ≡ first_some first second }
{
    match first {
        Some(_) => first,
        None => second,
    }
}

/// The place if a test holds.
fn place_if(holds: bool, place: Place) -> Option<Location>
    ensures { result ≡ (if holds then Some (place_alone place) else None) }
{
    if holds {
        Some(Location::single(place))
    } else {
        None
    }
}

impl SyntaxFaults {
    ghost use Rattle.std.specs.Prelude.{◌≡◌};
    ghost use Rattle.hc_project.specs.Reading.{both, faults_joined, missing_if, no_syntax_faults, outside_if};

    /// Nothing is wrong.
    pub fn none() -> SyntaxFaults
        ensures { result ≡ no_syntax_faults }
    {
        SyntaxFaults {
            missing: None,
            outside: None,
        }
    }

    /// A value is missing at a place if a test holds.
    pub fn missing_if(is_missing: bool, place: Place) -> SyntaxFaults
        ensures { result ≡ missing_if is_missing place }
    {
        SyntaxFaults {
            missing: place_if(is_missing, place),
            outside: None,
        }
    }

    /// A value is outside its range at a place if a test holds.
    pub fn outside_if(is_outside: bool, place: Place) -> SyntaxFaults
        ensures { result ≡ outside_if is_outside place }
    {
        SyntaxFaults {
            missing: None,
            outside: place_if(is_outside, place),
        }
    }

    /// The faults of two values, in the order of the text.
    #[tactic(auto, unfolding(crate::specs::Reading::both))]
    pub fn both(self, other: SyntaxFaults) -> SyntaxFaults
        ensures { result ≡ both self other }
    {
        SyntaxFaults {
            missing: first_some(self.missing, other.missing),
            outside: first_some(self.outside, other.outside),
        }
    }

    /// The faults of several values, in the order of the text.
    #[tactic(auto, using(crate::proofs::Joined::both_first))]
    pub fn joined(list: &[SyntaxFaults]) -> SyntaxFaults
        ensures { result ≡ faults_joined list.now }
    {
        let mut all = SyntaxFaults::none();
        for index in 0..list.len() {
            all = all.both(list[index]);
        }
        all
    }
}

/// A value that was read with its faults, or `AllocError` if an allocation failed.
pub type Read<T> = Result<Reading<T>, AllocError>;

/// A value that was read.
#[derive(Drop)]
pub struct Reading<T> {
    /// The value, or a substitute if it is missing or outside its range.
    pub value: T,
    /// The faults of the value and of all inside it.
    pub syntax_faults: SyntaxFaults,
}

impl<T> Reading<T> {
    ghost use Rattle.std.specs.Prelude.{◌≡◌};
    ghost use Rattle.hc_project.specs.Reading.{right, missing};

    /// A value without faults.
    pub fn right(value: T) -> Reading<T>
        ensures { result ≡ right value }
    {
        Reading {
            value,
            syntax_faults: SyntaxFaults::none(),
        }
    }

    /// A substitute for a value that is absent or of another kind at a place.
    pub fn missing(place: Place, value: T) -> Reading<T>
        ensures { result ≡ missing place value }
    {
        Reading {
            value,
            syntax_faults: SyntaxFaults::missing_if(true, place),
        }
    }
}

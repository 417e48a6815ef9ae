//! Laws that follow from the definition of a sum. Each function here does nothing, and its contract is a law. Nobody calls it.
ghost use Rattle.hc_bitsum.specs.Laws.{AreasTakeNothingBack, EmptyIsNeutral, EndsNeverFall, JoiningIsAssociative, SumsFillAsTheirAreas};

/// Three runs in a row have the same sum, whichever two are joined first.
pub fn joining_is_associative()
    ensures { JoiningIsAssociative }
{}

/// A run of no areas changes no sum that it is joined to, before or after.
pub fn empty_is_neutral()
    ensures { EmptyIsNeutral }
{}

/// An end never falls when an area is appended: from any start bit, the run with one more area ends at the same bit or at a
/// later one.
pub fn ends_never_fall()
    ensures { EndsNeverFall }
{}

/// An area never takes bits back: once it is in a datagram, the first free bit is the one before or a later
/// one.
pub fn areas_take_nothing_back()
    ensures { AreasTakeNothingBack }
{}

/// A run fills a datagram as its areas do, one after another, by the rules of packing.
pub fn sums_fill_as_their_areas()
    ensures { SumsFillAsTheirAreas }
{}

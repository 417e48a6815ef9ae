//! A law that follows from the definitions of `specs/`: the function here does nothing, and its contract is the law. Nobody
//! calls it.
ghost use Rattle.hc_segment.specs.LineLaws.{LinesHaveEach};

/// A line has a machine for each slave: at its opening, and after each edit, frame and written byte if it had one before.
pub fn lines_have_each()
    ensures { LinesHaveEach }
{}

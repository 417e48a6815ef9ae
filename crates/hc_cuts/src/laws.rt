//! Laws that follow from the definitions of this crate. Each function does nothing, and its contract is a law. Nobody calls it.
ghost use Rattle.hc_cuts.specs.Laws.{OverLimitHasNoCut};

/// If packing gives more than 16 datagrams, no other cut of the list in its order into at most 16 parts that fit a datagram
/// each exists. So no task is refused that another cut could serve.
pub fn over_limit_has_no_cut()
    ensures { OverLimitHasNoCut }
{}

//! One pass over the datagrams of a frame.
ghost use Rattle.std.specs.Prelude.{◌≡◌, ◌<◌, ◌≤◌, ◌^◌, length};
ghost use Rattle.hc_frames.specs.Arrived.{datagram_tails};
ghost use Rattle.hc_frames.specs.Survey.{noted, nothing_seen, surveyed};

use super::fields::{after_it, circulates, has_other_index, is_unknown, is_whole, says_more};

/// The survey of a frame's datagrams up to some place: the facts from which its fault follows.
#[derive(Clone, Copy)]
pub(crate) struct Survey {
    /// The number of datagrams.
    pub(crate) count: usize,
    /// One of them has gone round the ring.
    pub(crate) circulates: bool,
    /// The last one says that more follow. It is true before the first.
    pub(crate) more: bool,
    /// One of them has an unknown command.
    pub(crate) unknown: bool,
    /// One of them has another index.
    pub(crate) mismatch: bool,
}

impl Survey {
    /// Returns the survey with the datagram at the front, which is whole.
    fn noted(self, index: u8, bytes: &[u8]) -> Survey
        requires room { self.count < 2 ^ 63 }
        requires whole { 12 ≤ length bytes.now }
        ensures { result ≡ noted index self bytes.now }
    {
        Survey {
            count: self.count + 1,
            circulates: self.circulates | circulates(bytes),
            more: says_more(bytes),
            unknown: self.unknown | is_unknown(bytes),
            mismatch: self.mismatch | has_other_index(index, bytes),
        }
    }
}

/// Returns the survey of all datagrams of these bytes. `None` if one is not whole, or one but the last does not say that more
/// follow.
pub(crate) fn survey_of(region: &[u8], index: u8) -> Option<Survey>
    requires { length region.now < 2048 }
    ensures { result ≡ surveyed index nothing_seen (datagram_tails region.now) }
{
    let mut rest = region;
    let mut seen = Survey {
        count: 0,
        circulates: false,
        more: true,
        unknown: false,
        mismatch: false,
    };
    while !rest.is_empty() {
        if !seen.more || !is_whole(rest) {
            return None;
        }
        seen = seen.noted(index, rest);
        rest = after_it(rest);
    }
    Some(seen)
}

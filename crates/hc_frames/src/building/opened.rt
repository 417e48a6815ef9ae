//! A frame of several datagrams whose data parts are lent one after another.
ghost use Rattle.std.specs.Borrow.{sem, LendsBoth, Array, u8 as byte};
ghost use Rattle.std.specs.Prelude.{◌++◌, take, ◌≡◌, ◌≤◌, ◌<◌, length, drop};
ghost use Rattle.hc_frames.specs.OpenDatagrams.{AreOpen, first_size};

mod writing;

use crate::limits::{BESIDE_DATA_BYTES, DATAGRAM_HEAD_BYTES};
pub use writing::build_frame;

/// A frame whose data parts are still to be lent, in their order.
#[derive(Drop)]
pub struct Open<'a> {
    /// The bytes from the next datagram on, to the end of the slice.
    rest: &'a mut [u8],
    /// The datagrams that were not lent yet, by address and number of data bytes.
    datagrams: &'a [(u32, u16)],
    /// The frame's serial.
    serial: u64,
    /// The datagrams stand before the rest, with zeros as data.
    pub ghost standing: { AreOpen serial datagrams.now rest.now },
}

/// Splits a slice in two.
fn cut(bytes: &mut [u8], at: usize) -> (&mut [u8], &mut [u8])
    requires { at ≤ length bytes.old }
    ensures* joined { sem 𝓛 (LendsBoth (Array byte 0) (Array byte 0) (Array byte 0) bytes.entry result ◌++◌) }
    ensures front { result.0.now ≡ take at bytes.old }
    ensures back { result.1.now ≡ drop at bytes.old }
{
    bytes.split_at_mut(at)
}

/// Returns the number of data bytes of the first datagram, and the datagrams after it.
fn first_and_others(datagrams: &[(u32, u16)]) -> (usize, &[(u32, u16)])
    requires { 0 < length datagrams.now }
    ensures size { result.0 ≡ first_size datagrams.now }
    ensures others { result.1.now ≡ drop 1 datagrams.now }
{
    (usize::from(datagrams[0].1), &datagrams[1..])
}

impl<'a> Open<'a> {
    ghost use Rattle.std.specs.Prelude.{◌↔◌, [], replicate, IsNone, IfSome};
    ghost use Rattle.hc_frames.specs.Handing.{LendsNext};
    ghost use Rattle.hc_frames.specs.Opened.{HandsOutFirst};

    /// Lends the next datagram's data part, which is zeros at first, and returns the frame after it. `None` if all data parts
    /// were lent.
    pub fn next(self) -> Option<(&'a mut [u8], Open<'a>)>
        ensures* lent { sem 𝓛 (LendsNext self.entry result) }
        ensures all { IsNone result ↔ (self.entry.datagrams.now ≡ []) }
        ensures part { IfSome result (λ pair. pair.0.now ≡ replicate (first_size self.entry.datagrams.now) 0) }
        ensures left { IfSome result (λ pair. HandsOutFirst self.entry pair.1) }
    {
        let Open {
            rest,
            datagrams,
            serial,
        } = self;
        if datagrams.len() == 0 {
            return None;
        }
        let (size, others) = first_and_others(datagrams);
        let (text, after_it) = cut(rest, BESIDE_DATA_BYTES + size);
        let open = Open {
            rest: after_it,
            datagrams: others,
            serial,
        };
        Some((
            &mut text[DATAGRAM_HEAD_BYTES..DATAGRAM_HEAD_BYTES + size],
            open,
        ))
    }
}

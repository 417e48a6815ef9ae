//! A slice in parts of given lengths, taken one after another. A caller that lends bytes to several workers makes the parts:
//! `each_at_once` lends each to one of them.
ghost use Rattle.std.specs.Borrow.{sem, LendsBoth, Array, u8};
ghost use Rattle.std.specs.Prelude.{◌≡◌, [], ◌∷◌, ◌++◌, length, sum, ◌<◌, ◌≤◌, ◌↔◌, IsTrue};

/// The bytes that were not taken yet, and the lengths of their parts in bytes, one after another. The lengths add up to the
/// number of bytes. A length may be 0.
#[derive(Drop)]
pub struct Parts<'a> {
    pub bytes: &'a mut [u8],
    pub lengths: &'a [u32],
    pub ghost all: { sum lengths.now ≡ length bytes.now },
}

impl<'a> Parts<'a> {
    ghost use Rattle.hc_lend.specs.Parts.{LendsPart};

    /// Returns the slice in parts of these lengths in bytes, which add up to its own. It allocates nothing and cannot fail.
    pub fn of(bytes: &'a mut [u8], lengths: &'a [u32]) -> Self
        requires { sum lengths.now ≡ length bytes.old }
        ensures same_reference { result.bytes.ghost_name ≡ bytes.entry.ghost_name }
        ensures bytes { result.bytes.now ≡ bytes.old }
        ensures lengths { result.lengths.now ≡ lengths.now }
    {
        Self { bytes, lengths }
    }

    /// Returns whether no part is left.
    pub fn is_empty(&self) -> bool
        ensures { IsTrue result ↔ (self.now.lengths.now ≡ []) }
    {
        self.lengths.is_empty()
    }

    /// Takes the next part, which has the first of the lengths, and returns it with the rest. It allocates nothing and cannot
    /// fail.
    ///
    /// After both loans the bytes are the part and the rest as they were left, joined. Generated proofs of a caller follow no
    /// loan out of a struct that is passed by value: a caller whose contract names these bytes splits them by `split_at_mut`.
    pub fn take(self) -> (&'a mut [u8], Parts<'a>)
        requires { 0 < length self.lengths.now }
        ensures* writes_back { sem 𝓛 (LendsPart self.entry result) }
        ensures lengths { self.entry.lengths.now ≡ length result.0.now ∷ result.1.lengths.now }
        ensures bytes { self.entry.bytes.now ≡ result.0.now ++ result.1.bytes.now }
    {
        let Parts { bytes, lengths } = self;
        let (first, lengths) = split_lengths(lengths);
        let (part, bytes) = cut(bytes, first);
        (part, Parts { bytes, lengths })
    }
}

/// Returns the first length, and the others. There must be one.
fn split_lengths<'a>(lengths: &'a [u32]) -> (u32, &'a [u32])
    requires { 0 < length lengths.now }
    ensures { lengths.now ≡ result.0 ∷ result.1.now }
{
    (lengths[0], &lengths[1..])
}

/// Returns the first `at` bytes, and the others. There must be as many.
fn cut<'a>(bytes: &'a mut [u8], at: u32) -> (&'a mut [u8], &'a mut [u8])
    requires { at ≤ length bytes.old }
    ensures* writes_back { sem 𝓛 (LendsBoth (Array u8 0) (Array u8 0) (Array u8 0) bytes.entry result ◌++◌) }
    ensures joined { bytes.old ≡ result.0.now ++ result.1.now }
    ensures length { length result.0.now ≡ at }
{
    bytes.split_at_mut(at as usize)
}

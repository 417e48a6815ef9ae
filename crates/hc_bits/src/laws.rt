//! Laws of the contracts. A call that reads, replaces or copies bits does so with a part of the slice's list of bits; and the
//! bits of a slice's parts have their places in this list. The functions do nothing; their contracts are the laws.

ghost use Rattle.hc_bits.specs.Laws.{BitsSayBytes, CopiesIntoList, DisjointRunsCommute, JoinedBitsFollow, PartsKeepBits, PutsIntoList, PutsWhatIsRead, ReadsList, SameBitsAreSameBytes, ZerosHaveNoBits};

/// `get_bits` returns the number that the run's part of the list of bits spells.
pub fn reading_takes_list()
    ensures { ReadsList }
{}

/// `put_bits` leaves the list of bits with the run's part replaced by the value's bits.
pub fn putting_replaces_list()
    ensures { PutsIntoList }
{}

/// `copy_bits` leaves the list of bits with the run's part replaced by a part of the other list.
pub fn copying_replaces_list()
    ensures { CopiesIntoList }
{}

/// `get_bits` reads the value that `put_bits` has put.
pub fn put_is_read_back()
    ensures { PutsWhatIsRead }
{}

/// Slices of the same bits are the same bytes, so nothing of a slice escapes its list of bits.
pub fn bits_say_bytes()
    ensures { BitsSayBytes }
{}

/// Slices of the same length whose bits are the same, place by place, are the same bytes.
pub fn same_bits_are_same_bytes()
    ensures { SameBitsAreSameBytes }
{}

/// Each bit of a slice of zeros is 0.
pub fn zeros_have_no_bits()
    ensures { ZerosHaveNoBits }
{}

/// The bits of two slices joined are the first's, and after them those of the second.
pub fn joined_bits_follow()
    ensures { JoinedBitsFollow }
{}

/// The bits of a slice's first bytes are its own, and so are those of the bytes after them, further on.
pub fn parts_keep_bits()
    ensures { PartsKeepBits }
{}

/// Two runs that share no bit may be replaced in either order: each bit is then the same.
pub fn disjoint_runs_commute()
    ensures { DisjointRunsCommute }
{}

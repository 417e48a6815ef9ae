//! Laws of the rings' contracts. The functions do nothing; their contracts are the laws.
ghost use Rattle.hc_rings.specs.Laws.{TakenThenLeftIsPosted, WrittenBytesAreThere};

/// After the end came, after some posts, the taken posts followed by those that are left are these posts.
pub fn taken_then_left_is_posted()
    ensures { TakenThenLeftIsPosted }
{}

/// As many bytes as there are, written over all of them, replace them.
pub fn written_bytes_are_there()
    ensures { WrittenBytesAreThere }
{}

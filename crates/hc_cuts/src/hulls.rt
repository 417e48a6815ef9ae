//! The hulls of an edit of a task: its touched keys, from the least to the greatest.
ghost use Rattle.std.specs.Prelude.{◌≡◌};
ghost use Rattle.hc_records.specs.Boundaries.{meets_hull, widened};
ghost use Rattle.hc_records.specs.Keys.{is_within};

use hc_records::keys::Key;
use hc_records::records::Dir;

/// The intervals from the least to the greatest touched output and from the least to the greatest touched input; none if an
/// edit touches none.
#[derive(Clone, Copy)]
pub struct Hulls {
    /// The outputs' hull.
    pub outputs: Option<(Key, Key)>,
    /// The inputs' hull.
    pub inputs: Option<(Key, Key)>,
}

/// Returns the least interval that holds a key and an interval, if there is one.
fn widened(hull: Option<(Key, Key)>, key: Key) -> Option<(Key, Key)>
    ensures { result ≡ widened hull key }
{
    let Some((first, last)) = hull else {
        return Some((key, key));
    };
    Some((
        if key.is_before(first) { key } else { first },
        if last.is_before(key) { key } else { last },
    ))
}

/// Returns whether a key comes before another or is the same.
fn is_within(a: Key, b: Key) -> bool
    ensures { result ≡ is_within a b }
{
    a.is_before(b) || a.is_same(b)
}

/// Returns whether a span has a key in common with a hull.
pub(crate) fn meets_hull(hull: Option<(Key, Key)>, span: (Key, Key)) -> bool
    ensures { result ≡ meets_hull hull span }
{
    match hull {
        Some((first, last)) => is_within(first, span.1) && is_within(span.0, last),
        None => false,
    }
}

impl Hulls {
    ghost use Rattle.std.specs.Prelude.{◌≡◌};
    ghost use Rattle.hc_records.specs.Keys.{same_key};
    ghost use Rattle.hc_cuts.specs.Hulls.{TakeIn, are_none, no_hulls};

    /// Returns the hulls of an edit that touches no key.
    pub fn none() -> Hulls
        ensures { result ≡ no_hulls }
    {
        Hulls {
            outputs: None,
            inputs: None,
        }
    }

    /// Returns whether no key is touched.
    pub fn are_none(&self) -> bool
        ensures { result ≡ are_none self.now }
    {
        self.outputs.is_none() && self.inputs.is_none()
    }

    /// Widens the one of a key's direction, so that it holds the key.
    pub fn add(&mut self, key: Key)
        ensures { TakeIn self.old self.new (same_key key) }
    {
        match key.dir {
            Dir::Out => self.outputs = widened(self.outputs, key),
            Dir::In => self.inputs = widened(self.inputs, key),
        }
    }
}

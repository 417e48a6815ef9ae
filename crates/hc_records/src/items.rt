//! A list with its allocator, which contracts see as the list of its elements. Every record's collection is one.
ghost use Rattle.std.specs.Borrow.{sem};
ghost use Rattle.std.specs.Prelude.{◌≡◌, ◌<◌, ◌↔◌, List, [], ◌∷◌, ◌++◌, length, slice_index_or, is_ok, if◌then◌else◌, IfErr, IfOk, IsTrue};
ghost use Rattle.hc_records.specs.Lending.{LendsItem};

use std::alloc::{AllocError, AllocFailed, Global};
use std::marker::Model;

/// A value that can be copied into memory of an allocator.
pub trait Copied: Drop {
    /// Returns a copy that equals this value. `AllocError` if an allocation fails. This value stays as it is.
    fn copied(&self, alloc: Global) -> Result<Self, AllocError>
        ensures { IfOk result (λ copy. copy ≡ self.now) };
}

/// A value that can be compared as a whole.
pub trait Same {
    /// Returns whether two values are equal.
    fn is_same(&self, other: &Self) -> bool
        ensures { IsTrue result ↔ (self.now ≡ other.now) };
}

impl Copied for u16 {
    fn copied(&self, _alloc: Global) -> Result<u16, AllocError> {
        Ok(*self)
    }
}

impl Same for u16 {
    fn is_same(&self, other: &u16) -> bool {
        *self == *other
    }
}

/// A list with its allocator.
#[derive(Drop, Debug)]
pub struct Items<T> {
    pub(crate) inside: Vec<T>,
}

impl<T> Model for Items<T> {
    ghost use Rattle.std.specs.Prelude.{List};

    ghost Value = { List T };

    ghost view = { λ list. list.inside.items };
}

impl<T> Items<T> {
    /// Returns an empty list. It allocates nothing until the first `push`.
    pub fn new(alloc: Global) -> Self
        ensures { result ≡ [] }
    {
        Items {
            inside: Vec::new(alloc),
        }
    }

    /// Returns the list of a vector's elements, in its memory.
    pub fn of(inside: Vec<T>) -> Self
        ensures { result ≡ inside.items }
    {
        Items { inside }
    }

    /// Returns the elements as a vector, in the same memory.
    pub fn into_vec(self) -> Vec<T>
        ensures { result.items ≡ self }
    {
        let Items { inside } = self;
        inside
    }

    /// Returns the elements, in order.
    pub fn as_slice(&self) -> &[T]
        ensures { result.now ≡ self.now }
    {
        self.inside.as_slice()
    }

    /// Returns the number of elements.
    pub fn len(&self) -> usize
        ensures { result ≡ length self.now }
    {
        self.inside.len()
    }

    /// Returns whether there is no element.
    pub fn is_empty(&self) -> bool
        ensures { IsTrue result ↔ (self.now ≡ []) }
    {
        self.inside.is_empty()
    }

    /// Appends an element. If an allocation fails the element is returned and the list is unchanged.
    pub fn push(&mut self, item: T) -> Result<(), AllocFailed<T>>
        ensures items { self.new ≡ (if is_ok result then self.old ++ item ∷ [] else self.old) }
        ensures returned { IfErr result (λ refused. refused.value ≡ item) }
    {
        self.inside.push(item)
    }

    /// Lends the element at an index below the length for writing. After the loan the list has the value last written there,
    /// and every other element is unchanged.
    pub fn item_mut(&mut self, index: usize) -> &mut T
        requires { index < length self.old }
        ensures* writes_back { sem 𝓛 (LendsItem T.row self.entry index result) }
        ensures value { result.now ≡ slice_index_or self.old index result.now }
    {
        &mut self.inside[index]
    }
}

impl<T: Copied> Copied for Items<T> {
    fn copied(&self, alloc: Global) -> Result<Items<T>, AllocError> {
        let mut inside = Vec::with_capacity(alloc, self.len())?;
        for item in self.as_slice() {
            inside.push(item.copied(alloc)?)?;
        }
        Ok(Items { inside })
    }
}

impl<T: Same> Same for Items<T> {
    fn is_same(&self, other: &Self) -> bool {
        let these = self.as_slice();
        let those = other.as_slice();
        if these.len() != those.len() {
            return false;
        }
        for i in 0..these.len() {
            if !these[i].is_same(&those[i]) {
                return false;
            }
        }
        true
    }
}

// The project's list, and its answer for want of memory.
ghost use Rattle.std.specs.Prelude.{◌≡◌, ◌+◌, ◌<◌, ◌==◌, List, [], ◌∷◌, ◌++◌, length, set, IfOk, OnErr, OnOk, slice_get, option_copied};

use std::alloc::{AllocError, AllocFailed, Global};
use std::marker::Model;

/// Want of memory. Any call that takes an allocator may answer it, and no clause says when.
#[derive(Clone, Copy, Debug, PartialEq, Eq)]
pub struct Memory;

impl From<AllocError> for Memory {
    fn from(_error: AllocError) -> Memory {
        Memory
    }
}

impl<T: Drop> From<AllocFailed<T>> for Memory {
    fn from(_error: AllocFailed<T>) -> Memory {
        Memory
    }
}

/// A list, which contracts see as its elements.
#[derive(Debug, Drop)]
pub struct Many<T> {
    items: Vec<T>,
}

impl<T> Model for Many<T> {
    ghost Value = { List T };

    ghost view = { λ m. m.items.items };
}

/// A text as its bytes.
pub type Bytes = Many<u8>;

/// The name of a place, a driver or an order, as its bytes.
pub type Name = Many<u8>;

impl<T> Many<T> {
    /// The empty list, which takes no memory.
    pub fn new(alloc: Global) -> Many<T>
        ensures { result ≡ [] }
    {
        Many {
            items: Vec::new(alloc),
        }
    }

    /// The list of the vector's elements.
    pub fn from_vec(items: Vec<T>) -> Many<T>
        ensures { result ≡ items.items }
    {
        Many { items }
    }

    /// The elements as a vector.
    pub fn into_vec(self) -> Vec<T>
        ensures { result.items ≡ self }
    {
        let Many { items } = self;
        items
    }

    /// The number of elements.
    pub fn len(&self) -> usize
        ensures { result ≡ length self.now }
    {
        self.items.len()
    }

    /// Whether there is no element.
    pub fn is_empty(&self) -> bool
        ensures { result ≡ (length self.now == 0) }
    {
        self.items.is_empty()
    }

    /// The elements as a slice.
    pub fn as_slice(&self) -> &[T]
        ensures { result.now ≡ self.now }
    {
        self.items.as_slice()
    }

    /// The element at a place that counts from 0, or none past the end.
    pub fn get(&self, place: usize) -> Option<&T>
        ensures { option_copied result ≡ slice_get self.now place }
    {
        self.items.get(place)
    }

    /// Adds an element at the end. Where memory wants, the element is dropped and the list stays.
    pub fn push(&mut self, value: T) -> Result<(), Memory>
    where
        T: Drop,
        ensures ok { OnOk result (self.new ≡ self.old ++ value ∷ []) }
        ensures err { OnErr result (self.new ≡ self.old) }
    {
        self.items.push(value)?;
        Ok(())
    }

    /// Puts a value in the place of an element, which is dropped. It takes no memory.
    pub fn set(&mut self, place: usize, value: T)
    where
        T: Drop,
        requires place { place < length self.old }
        ensures { self.new ≡ set self.old place value }
    {
        self.items[place] = value;
    }
}

impl<T: Copy> Many<T> {
    /// A list of copies of the slice's elements.
    pub fn from_slice(alloc: Global, items: &[T]) -> Result<Many<T>, Memory>
        ensures { IfOk result (λ list. list ≡ items.now) }
    {
        Ok(Many {
            items: Vec::from_slice(alloc, items)?,
        })
    }

    /// Adds copies of the slice's elements at the end. Where memory wants, the list stays.
    pub fn extend_from_slice(&mut self, more: &[T]) -> Result<(), Memory>
        ensures ok { OnOk result (self.new ≡ self.old ++ more.now) }
        ensures err { OnErr result (self.new ≡ self.old) }
    {
        self.items.extend_from_slice(more)?;
        Ok(())
    }
}

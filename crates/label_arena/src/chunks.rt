// A chunk never grows, so storing a value wants no memory.
ghost use Rattle.std.specs.Prelude.{◌≡◌, ℕ, ◌+◌, ◌==◌, ◌<◌, ◌≤◌, List, [], ◌∷◌, ◌++◌, length, IfOk, IfSome, IfNone, vec_capacity, vec_len, slice_get, option_copied};

use minute_line::Memory;
use std::alloc::Global;
use std::marker::Model;

/// The values that a chunk has room for.
pub const CHUNK_PLACES: usize = 1024;

/// A list with room for 1,024 values, which never grows. Contracts see its values.
#[derive(Drop)]
pub struct Chunk<T> {
    values: Vec<T>,
}

impl<T> Model for Chunk<T> {
    ghost Value = { List T };

    ghost view = { λ c. c.values.items };

    ghost invariant = { λ c. (1024 ≤ vec_capacity c.values) × (vec_len c.values ≤ 1024) };
}

impl<T> Chunk<T> {
    /// A new chunk, which is empty.
    pub(crate) fn make(alloc: Global) -> Result<Chunk<T>, Memory>
        ensures { IfOk result (λ chunk. chunk ≡ []) }
    {
        Ok(Chunk {
            values: Vec::with_capacity(alloc, CHUNK_PLACES)?,
        })
    }

    /// Adds a value at the end, and hands it back where 1,024 are there. It takes no memory.
    pub fn push(&mut self, value: T) -> Option<T>
        ensures full { IfSome result (λ back. (back ≡ value) × (length self.old ≡ 1024) × (self.new ≡ self.old)) }
        ensures pushed { IfNone result ((length self.old < 1024) × (self.new ≡ self.old ++ value ∷ [])) }
    {
        if self.values.len() == CHUNK_PLACES {
            return Some(value);
        }
        self.values.push_reserved(value);
        None
    }

    /// The number of values.
    pub fn len(&self) -> usize
        ensures count { result ≡ length self.now }
        ensures most { result ≤ 1024 }
    {
        self.values.len()
    }

    /// Whether there is no value.
    pub fn is_empty(&self) -> bool
        ensures { result ≡ (length self.now == 0) }
    {
        self.values.is_empty()
    }

    /// The value at a place that counts from 0, or none past the end.
    pub fn get(&self, place: usize) -> Option<&T>
        ensures { option_copied result ≡ slice_get self.now place }
    {
        self.values.get(place)
    }
}

impl<T: Drop> Chunk<T> {
    /// Drops the values, and keeps their room.
    pub(crate) fn clear(&mut self)
        ensures { self.new ≡ [] }
    {
        self.values.clear();
    }
}

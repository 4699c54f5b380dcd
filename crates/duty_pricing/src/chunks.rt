// The stored labels in chunks of 1,024, all of which are full but the last.
ghost use Rattle.std.specs.Prelude.{◌≡◌, ◌<◌, ◌≤◌, ◌+◌, ◌*◌, ◌/◌, ◌%◌, [], ◌∷◌, ◌++◌, length, true, false, IfOk, IfSome, IfNone, slice_get, option_copied};

use crate::slots::Slot;
use label_arena::Chunk;
use minute_line::Memory;
use std::alloc::Global;
use std::marker::Model;

/// The labels of a chunk.
const ROOM: usize = 1024;

/// The most chunks of a pricing.
pub(crate) const CHUNKS: usize = 2048;

/// The stored labels. Contracts see the list of their slots.
#[derive(Drop)]
pub struct Chunks {
    chunks: Vec<Chunk<Slot>>,
    stored: u32,
}

impl Model for Chunks {
    ghost use Rattle.std.specs.Prelude.{◌≡◌, ◌≤◌, List, length, vec_capacity};
    ghost use Rattle.duty_pricing.specs.declared.slots.Slot.{Slot};
    ghost use Rattle.duty_pricing.specs.Chunking.{AreFilled, joined};

    ghost Value = { List Slot };

    ghost view = { λ s. joined s.chunks.items };

    ghost invariant = { λ s. AreFilled s.chunks.items × (2048 ≤ vec_capacity s.chunks) × (length s.chunks.items ≤ 2048)
        × (s.stored ≡ length (joined s.chunks.items)) };
}

/// Whether there was room for the slot.
fn has_pushed(chunk: &mut Chunk<Slot>, slot: Slot) -> bool
    ensures pushed { result ≡ true → chunk.new ≡ chunk.old ++ slot ∷ [] }
    ensures room { result ≡ true → length chunk.old < 1024 }
    ensures unchanged { result ≡ false → chunk.new ≡ chunk.old }
    ensures full { result ≡ false → length chunk.old ≡ 1024 }
{
    chunk.push(slot).is_none()
}

impl Chunks {
    /// No chunk yet, with room for 2,048.
    pub(crate) fn with_room(alloc: Global) -> Result<Chunks, Memory>
        ensures { IfOk result (λ chunks. chunks ≡ []) }
    {
        Ok(Chunks {
            chunks: Vec::with_capacity(alloc, CHUNKS)?,
            stored: 0,
        })
    }

    /// The number of stored labels.
    pub fn len(&self) -> u32
        ensures count { result ≡ length self.now }
        ensures most { result ≤ 2097152 }
    {
        self.stored
    }

    /// The slot of that number, or none past the last.
    pub fn get(&self, number: u32) -> Option<&Slot>
        ensures { option_copied result ≡ slice_get self.now number }
    {
        match self.chunks.get(number as usize / ROOM) {
            Some(chunk) => chunk.get(number as usize % ROOM),
            None => None,
        }
    }

    /// Whether there was room for the slot in the last chunk.
    pub(crate) fn push_last(&mut self, slot: Slot) -> bool
        ensures pushed { result ≡ true → self.new ≡ self.old ++ slot ∷ [] }
        ensures row { result ≡ true → (length self.new + 1023) / 1024 ≡ (length self.old + 1023) / 1024 }
        ensures unchanged { result ≡ false → self.new ≡ self.old }
        ensures full { result ≡ false → length self.old % 1024 ≡ 0 }
    {
        let Some(mut last) = self.chunks.pop() else {
            return false;
        };
        if !has_pushed(&mut last, slot) {
            self.chunks.push_reserved(last);
            return false;
        }
        self.chunks.push_reserved(last);
        self.stored += 1;
        true
    }

    /// Puts the slot into an empty chunk, which follows full ones.
    pub(crate) fn push_new(&mut self, chunk: Chunk<Slot>, slot: Slot)
        requires empty { chunk ≡ [] }
        requires full { length self.old % 1024 ≡ 0 }
        requires room { length self.old < 2097152 }
        ensures { self.new ≡ self.old ++ slot ∷ [] }
    {
        let mut chunk = chunk;
        has_pushed(&mut chunk, slot);
        self.chunks.push_reserved(chunk);
        self.stored += 1;
    }

    /// The last chunk, which is taken away.
    pub(crate) fn pop(&mut self) -> Option<Chunk<Slot>>
        ensures some { IfSome result (λ chunk. (length self.new < length self.old)
            × ((length self.new + 1023) / 1024 + 1 ≡ (length self.old + 1023) / 1024)) }
        ensures none { IfNone result ((self.old ≡ []) × (self.new ≡ [])) }
    {
        let chunk = self.chunks.pop()?;
        self.stored -= chunk.len() as u32;
        Some(chunk)
    }
}

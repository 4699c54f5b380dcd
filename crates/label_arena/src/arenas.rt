// Chunks between two rounds.
ghost use Rattle.std.specs.Prelude.{◌≡◌, ℕ, ◌<◌, All, List, [], length, vec_len, IfOk, Some};

use crate::chunks::Chunk;
use minute_line::Memory;
use std::alloc::Global;
use std::marker::Model;

/// Chunks that no seat uses. Contracts see their number.
#[derive(Drop)]
pub struct Arena<T> {
    pub(crate) chunks: Vec<Option<Chunk<T>>>,
}

impl<T> Model for Arena<T> {
    ghost Value = { ℕ };

    ghost view = { λ a. length a.chunks.items };

    ghost invariant = { λ a. All (λ chunk. chunk ≡ Some []) a.chunks.items × (length a.chunks.items < 4294967296) };
}

impl<T: Drop> Arena<T> {
    /// Reserves that many chunks of 1,024 places.
    pub fn make(alloc: Global, chunks: u32) -> Result<Arena<T>, Memory>
        ensures { IfOk result (λ arena. arena ≡ chunks) }
    {
        let mut row = Vec::with_capacity(alloc, chunks as usize)?;
        'making: while row.len() < chunks as usize {
            row.push_reserved(Some(Chunk::make(alloc)?));
        }
        Ok(Arena { chunks: row })
    }
}

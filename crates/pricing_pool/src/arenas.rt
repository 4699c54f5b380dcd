// Want of memory drops an arena; its number of chunks stays, and the next round makes it anew.
ghost use Rattle.std.specs.Prelude.{◌≡◌, ◌≤◌, IfOk};
ghost use Rattle.duty_plan.specs.LabelLists.{chunks_for};

use duty_pricing::Slot;
use label_arena::{Arena, CHUNK_PLACES};
use minute_line::Memory;
use std::alloc::Global;
use std::marker::Model;

/// The arena of a pricer, which a round takes and puts back. Contracts see the number of its chunks.
#[derive(Drop)]
pub struct KeptArena {
    chunks: u32,
    arena: Option<Arena<Slot>>,
}

impl Model for KeptArena {
    ghost use Rattle.std.specs.Prelude.{◌≡◌, ◌≤◌, ℕ, IfSome};

    ghost Value = { ℕ };

    ghost view = { λ kept. kept.chunks };

    ghost invariant = { λ kept. (kept.chunks ≤ 2048) × IfSome kept.arena (λ arena. arena ≡ kept.chunks) };
}

impl KeptArena {
    /// Chunks for so many labels.
    pub(crate) fn make(alloc: Global, labels: u32) -> Result<KeptArena, Memory>
        requires { labels ≤ 2097152 }
        ensures { IfOk result (λ kept. kept ≡ chunks_for labels) }
    {
        let chunks = labels.div_ceil(CHUNK_PLACES as u32);
        Ok(KeptArena {
            chunks,
            arena: Some(Arena::make(alloc, chunks)?),
        })
    }

    /// The arena, which is made anew where it is lost.
    pub(crate) fn take(&mut self, alloc: Global) -> Result<Arena<Slot>, Memory>
        ensures chunks { IfOk result (λ arena. (arena ≡ self.old) × (arena ≤ 2048)) }
        ensures same { self.new ≡ self.old }
    {
        match self.arena.take() {
            Some(arena) => Ok(arena),
            None => Arena::make(alloc, self.chunks),
        }
    }

    /// Puts the arena back.
    pub(crate) fn put(&mut self, arena: Arena<Slot>)
        requires { arena ≡ self.old }
        ensures { self.new ≡ self.old }
    {
        self.arena = Some(arena);
    }
}

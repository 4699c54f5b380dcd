// A round keeps no seat of the table for itself: a seat may move between threads and is not shared, and a round is.
ghost use Rattle.std.specs.Prelude.{◌≡◌, ℕ, ◌<◌, ◌≤◌};

use crate::chunks::Chunk;
use crate::views::{RoundRule, View};
use atomic_table::Table;
use std::alloc::Global;
use std::marker::Model;

/// The counter is word 0, and the chunk of each number lies in its slot.
pub(crate) type ChunkTable<T> = Table<Option<Chunk<T>>, View, u32, RoundRule, Global>;

/// Chunks that the seats of one round share. Contracts see its name, the number of its chunks and the number of its seats.
/// Where `T: Send`, threads may share it.
#[derive(Drop)]
pub struct Round<T> {
    pub(crate) table: ChunkTable<T>,
    pub(crate) chunks: u32,
    pub(crate) seats: u32,
}

impl<T> Model for Round<T> {
    ghost use Rattle.std.specs.Prelude.{◌≡◌, ◌<◌};
    ghost use Rattle.label_arena.specs.Views.{RoundView, round_code};

    ghost Value = { RoundView };

    ghost coded = { round_code };

    ghost view = { λ r. record { name = r.table.shared.table_id; chunks = r.chunks; seats = r.seats } };

    ghost invariant = { λ r. (r.table.shared.table_id.words ≡ 1) × (r.table.shared.table_id.slots ≡ r.chunks)
        × (r.table.shared.key ≡ r.seats) × (0 < r.seats) };
}

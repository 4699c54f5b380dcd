// A round begins: the table starts with all parts in one view, and each seat is cut off it. What is left of that view's
// seat is dropped, so that the round can be shared; its view stays among the views and has the rest of the parts.
ghost use Rattle.std.specs.Prelude.{◌≡◌, ℕ, ◌+◌, ◌<◌, All, length, IfOk, OnOk, true};
ghost use Rattle.label_arena.specs.Rule.{rest_after};
ghost use Rattle.label_arena.specs.Views.{IsNew};

use crate::arenas::Arena;
use crate::rounds::{ChunkTable, Round};
use crate::seats::{Seat, Token};
use crate::views::Splitting;
use minute_line::{Many, Memory};
use std::alloc::Global;

impl<T: Drop> Arena<T> {
    /// Shares the chunks among that many seats, with the counter at 0. Each seat is of this round, has drawn nothing and
    /// holds nothing. Where memory wants, the arena is dropped.
    pub fn open_round(self, alloc: Global, seats: u32) -> Result<(Round<T>, Many<Seat<T>>), Memory>
        requires { 0 < seats }
        ensures round { IfOk result (λ r. (r.0.chunks ≡ self) × (r.0.seats ≡ seats)) }
        ensures seats { IfOk result (λ r. (length r.1 ≡ seats) × All (IsNew r.0.name) r.1) }
    {
        let Arena { chunks: row } = self;
        let chunks = row.len() as u32;
        let mut opened = Vec::with_capacity(alloc, seats as usize)?;
        let Ok((table, mut rest)) = ChunkTable::<T>::new(alloc, &[0], row, &seats) else {
            return Err(Memory);
        };
        'splitting: while opened.len() < seats as usize {
            opened.push_reserved(split_seat(alloc, &table, &mut rest, chunks)?);
        }
        let round = Round {
            table,
            chunks,
            seats,
        };
        Ok((round, Many::from_vec(opened)))
    }
}

// Cuts a new seat off the rest, with room for the numbers of all chunks.
fn split_seat<T: Drop>(
    alloc: Global,
    table: &ChunkTable<T>,
    rest: &mut Token<T>,
    chunks: u32,
) -> Result<Seat<T>, Memory>
    requires table { (rest.old.table_id ≡ table.now.shared.table_id)
        × (table.now.shared.table_id.words ≡ 1) × (table.now.shared.table_id.slots ≡ chunks) }
    requires part { (0 < rest.old.me.0.parts) × (4294967296 < rest.old.me.0.parts + table.now.shared.key) × (rest.old.me.0.is_rest ≡ true) }
    ensures seat { IfOk result (IsNew table.now.shared.table_id) }
    ensures rest { OnOk result ((rest.new.table_id ≡ rest.old.table_id) × (rest.new.me ≡ (rest_after rest.old.me.0, rest.old.me.1))) }
{
    let order = Vec::with_capacity(alloc, chunks as usize)?;
    let token = table.shared.split_seat::<Splitting>(rest);
    Ok(Seat { token, order })
}

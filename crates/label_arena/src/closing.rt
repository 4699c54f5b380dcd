// A round ends: each seat brings its slots back, and then one of them takes in the others. It has the parts of all seats,
// so it has drawn all that was drawn.
ghost use Rattle.std.specs.Prelude.{◌≡◌, ℕ, ◌+◌, ◌<◌, [], ◌++◌, All, true, false, length, IfOk, OnOk};
ghost use Rattle.label_arena.specs.Counting.{times, once_below, total};
ghost use Rattle.label_arena.specs.Views.{IsReady};

use crate::arenas::Arena;
use crate::rounds::{ChunkTable, Round};
use crate::seats::{Seat, Token};
use crate::views::{Joining, Returning};
use minute_line::{Many, Memory};
use std::alloc::Global;

impl<T: Drop> Round<T> {
    /// Ends the round, with all of its seats, and empties its chunks. The numbers that the seats drew are those below some
    /// number, each once. Where memory wants, the chunks are dropped.
    pub fn close(self, alloc: Global, seats: Many<Seat<T>>) -> Result<Arena<T>, Memory>
        requires count { length seats ≡ self.seats }
        requires each { All (IsReady self.name) seats }
        ensures arena { IfOk result (λ arena. arena ≡ self.chunks) }
        ensures drawn { OnOk result ((n : ℕ) × ((number : ℕ) → total (λ seat. times number seat.drawn) seats ≡ once_below number n)) }
    {
        let Round {
            table,
            chunks,
            seats: _,
        } = self;
        let mut row = Vec::with_capacity(alloc, chunks as usize)?;
        let mut left = seats.into_vec();
        let Some(first) = left.pop() else {
            unreachable!()
        };
        let mut all = bring_home(&table, first);
        'joining: while let Some(seat) = left.pop() {
            let token = bring_home(&table, seat);
            table.shared.join_seat::<Joining>(&mut all, token);
        }
        let mut closed = table.close_with(all);
        'taking: for i in 0..chunks as usize {
            row.push_reserved(closed.take(i));
        }
        closed.free();
        Ok(Arena { chunks: row })
    }
}

// The token of a seat that holds nothing, once its slots are back.
fn bring_home<T: Drop>(table: &ChunkTable<T>, seat: Seat<T>) -> Token<T>
    requires table { table.now.shared.table_id.words ≡ 1 }
    requires seat { IsReady table.now.shared.table_id seat }
    ensures token { (result.table_id ≡ table.now.shared.table_id) × (result.me.0.parts ≡ 1) × (result.me.0.drawn ≡ seat.drawn) }
    ensures home { (result.me.0.has_returned ≡ true) × (result.me.0.is_rest ≡ false) × (result.me.1 ≡ []) }
{
    let Seat {
        mut token,
        order: _,
    } = seat;
    table.shared.load::<Returning>(&mut token, 0);
    token
}

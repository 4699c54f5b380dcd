// A seat claims chunks of its round and gives them back, each in one atomic step, with no wait for another.
ghost use Rattle.std.specs.Prelude.{◌≡◌, ℕ, ◌<◌, All};
ghost use Rattle.label_arena.specs.Counting.{times, without};
ghost use Rattle.label_arena.specs.Claiming.{AnswersClaim, DrawsNext};

use crate::chunks::Chunk;
use crate::rounds::Round;
use crate::turning::{taken_after, turn};
use crate::views::{Drawing, View};
use std::marker::Model;

/// The answer to a claim.
#[derive(Drop)]
pub enum Claim<T> {
    /// The number drawn, and the chunk of that number, which is empty.
    Chunk(u32, Chunk<T>),
    /// The number drawn is the number of chunks or more.
    Full,
}

/// A seat of the shared table.
pub(crate) type Token<T> = atomic_table::Seat<Option<Chunk<T>>, View>;

/// The right of one worker to claim chunks of a round. Contracts see its round's name, the numbers that it drew, the first
/// first, and the numbers of the chunks that it holds, the newest first. Where `T: Send`, it may move between threads.
#[derive(Drop)]
pub struct Seat<T> {
    pub(crate) token: Token<T>,
    // The numbers of the token's slots, the one taken first first. It has room for all chunks, so a claim wants no memory.
    pub(crate) order: Vec<u32>,
}

impl<T> Model for Seat<T> {
    ghost use Rattle.std.specs.Prelude.{vec_capacity};
    ghost use Rattle.label_arena.specs.Views.{SeatView, seat_code};
    ghost use Rattle.label_arena.specs.Holding.{held_of, HoldsSeat};

    ghost Value = { SeatView };

    ghost coded = { seat_code };

    ghost view = { λ s. record { name = s.token.table_id; drawn = s.token.me.0.drawn; held = held_of s.token.me.1 } };

    ghost invariant = { λ s. HoldsSeat s.token.me s.order.items s.token.table_id.slots (vec_capacity s.order) };
}

impl<T> Seat<T> {
    /// Draws the number of the counter, which grows by 1, and takes the chunk of that number where there is one. A seat that
    /// was answered Full claims no more. It takes no memory.
    pub fn claim(&mut self, round: &Round<T>) -> Claim<T>
        requires round { self.old.name ≡ round.now.name }
        requires open { All (λ number. number < round.now.chunks) self.old.drawn }
        ensures name { self.new.name ≡ self.old.name }
        ensures answer { (n : ℕ) × DrawsNext n self.old.drawn self.new.drawn
            × AnswersClaim round.now.chunks n self.old.held self.new.held result }
    {
        let shared = &round.table.shared;
        let number = shared.fetch_add::<Drawing>(&mut self.token, 0, 1);
        if number >= round.chunks as u64 {
            return Claim::Full;
        }
        let Some(chunk) = shared.exchange(&mut self.token, number as usize, None) else {
            unreachable!()
        };
        self.order.push_reserved(number as u32);
        Claim::Chunk(number as u32, chunk)
    }
}

impl<T: Drop> Seat<T> {
    /// Puts a chunk back into the slot of a number that the seat holds, emptied. The seat holds that number no more; the
    /// numbers that it drew stay. It takes no memory.
    pub fn give(&mut self, round: &Round<T>, number: u32, chunk: Chunk<T>)
        requires round { self.old.name ≡ round.now.name }
        requires holds { 0 < times number self.old.held }
        ensures name { self.new.name ≡ self.old.name }
        ensures drawn { self.new.drawn ≡ self.old.drawn }
        ensures held { self.new.held ≡ without number self.old.held }
    {
        let mut chunk = chunk;
        chunk.clear();
        let after = taken_after(&self.order, number);
        turn(&mut self.token, after);
        round
            .table
            .shared
            .exchange(&mut self.token, number as usize, Some(chunk));
        turn(&mut self.token, self.order.len() - after);
    }
}

// What the proofs know of a seat of the shared table, and the kinds of its atomic steps. No value of these types is made.
ghost use Rattle.label_arena.specs.Rule.{IsRoundState, draws, rest_view, rest_after, new_seat, joined, spent_view, brings_home};

use crate::chunks::Chunk;
use atomic_table::{Join, Play, Split, TableRule};
use std::collections::LinkedList;

/// What a seat knows: its parts of all that there are, the numbers that it drew, whether it has brought its slots back, and
/// whether it is the rest of the parts, which no seat has.
pub struct View {
    pub parts: u64,
    pub drawn: LinkedList<u64>,
    pub has_returned: bool,
    pub is_rest: bool,
}

/// The rule of a round's table, whose key is the number of seats.
pub struct RoundRule;

impl<T> TableRule<Option<Chunk<T>>, View, u32> for RoundRule {
    ghost holds = { IsRoundState };

    ghost first = { λ _. rest_view 4294967296 };
}

/// A claim: a number is drawn, and its slot passes to the seat.
pub struct Drawing;

impl<T> Play<Option<Chunk<T>>, View> for Drawing {
    ghost then = { draws };
}

/// A split: a new seat has one part of the rest.
pub struct Splitting;

impl Split<View> for Splitting {
    ghost left = { rest_after };

    ghost right = { new_seat };
}

/// A join: one seat takes what another drew, and its parts.
pub struct Joining;

impl Join<View> for Joining {
    ghost both = { joined };

    ghost spent = { spent_view };
}

/// A seat's slots pass back to the table.
pub struct Returning;

impl<T> Play<Option<Chunk<T>>, View> for Returning {
    ghost then = { λ st m n m'. brings_home m m' };
}

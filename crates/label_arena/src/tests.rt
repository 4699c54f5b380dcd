// Two seats claim from two chunks, in each order of three claims: the counter goes 0, 1, 2, whichever seat claims, and 2
// has no chunk.
ghost use Rattle.std.specs.Prelude.{◌≡◌, ◌+◌, ◌<◌, All, [], IfSome, length};
ghost use Rattle.label_arena.specs.Views.{IsNew, IsReady};

use crate::{Arena, CHUNK_PLACES, Chunk, Claim, Round, Seat};
use minute_line::{Many, Memory};
use std::alloc::Global;

/// Claims a chunk, stores a value in it and gives it back: the chunk's number, or none at Full.
fn use_chunk(seat: &mut Seat<u32>, round: &Round<u32>) -> Option<u32>
    requires round { seat.old.name ≡ round.now.name }
    requires open { All (λ number. number < round.now.chunks) seat.old.drawn }
    requires bare { seat.old.held ≡ [] }
    ensures ready { (seat.new.name ≡ seat.old.name) × (seat.new.held ≡ []) }
    ensures open { IfSome result (λ number. All (λ number. number < round.now.chunks) seat.new.drawn) }
{
    match seat.claim(round) {
        Claim::Chunk(number, mut chunk) => {
            chunk.push(number);
            seat.give(round, number, chunk);
            Some(number)
        }
        Claim::Full => None,
    }
}

/// A claim of the one seat or of the other.
fn take_turn(
    is_first: bool,
    first: &mut Seat<u32>,
    second: &mut Seat<u32>,
    round: &Round<u32>,
) -> Option<u32>
    requires round { (first.old.name ≡ round.now.name) × (second.old.name ≡ round.now.name) }
    requires open { All (λ number. number < round.now.chunks) first.old.drawn
        × All (λ number. number < round.now.chunks) second.old.drawn }
    requires bare { (first.old.held ≡ []) × (second.old.held ≡ []) }
    ensures ready { (first.new.name ≡ first.old.name) × (second.new.name ≡ second.old.name)
        × (first.new.held ≡ []) × (second.new.held ≡ []) }
    ensures open { IfSome result (λ number. All (λ number. number < round.now.chunks) first.new.drawn
        × All (λ number. number < round.now.chunks) second.new.drawn) }
{
    if is_first {
        use_chunk(first, round)
    } else {
        use_chunk(second, round)
    }
}

/// The chunks of three claims in these turns, up to the first Full.
fn take_turns(
    turns: [bool; 3],
    first: &mut Seat<u32>,
    second: &mut Seat<u32>,
    round: &Round<u32>,
) -> [Option<u32>; 3]
    requires round { (first.old.name ≡ round.now.name) × (second.old.name ≡ round.now.name) }
    requires open { All (λ number. number < round.now.chunks) first.old.drawn
        × All (λ number. number < round.now.chunks) second.old.drawn }
    requires bare { (first.old.held ≡ []) × (second.old.held ≡ []) }
    ensures { (first.new.name ≡ first.old.name) × (second.new.name ≡ second.old.name)
        × (first.new.held ≡ []) × (second.new.held ≡ []) }
{
    let Some(one) = take_turn(turns[0], first, second, round) else {
        return [None; 3];
    };
    let Some(two) = take_turn(turns[1], first, second, round) else {
        return [Some(one), None, None];
    };
    let three = take_turn(turns[2], first, second, round);
    [Some(one), Some(two), three]
}

/// The last of a round's new seats.
fn next_seat(round: &Round<u32>, seats: &mut Vec<Seat<u32>>) -> Seat<u32>
    requires new { All (IsNew round.now.name) seats.old.items }
    requires some { 0 < length seats.old.items }
    ensures seat { (result.name ≡ round.now.name) × (result.drawn ≡ []) × (result.held ≡ []) }
    ensures new { All (IsNew round.now.name) seats.new.items }
    ensures fewer { length seats.new.items + 1 ≡ length seats.old.items }
{
    let Some(seat) = seats.pop() else {
        unreachable!()
    };
    seat
}

/// Closes a round of two seats.
fn close_two(
    alloc: Global,
    round: Round<u32>,
    first: Seat<u32>,
    second: Seat<u32>,
) -> Result<Arena<u32>, Memory>
    requires seats { round.seats ≡ 2 }
    requires ready { IsReady round.name first × IsReady round.name second }
{
    let mut seats = Vec::with_capacity(alloc, 2)?;
    seats.push_reserved(first);
    seats.push_reserved(second);
    round.close(alloc, Many::from_vec(seats))
}

/// The chunks of three claims in these turns, and how many values the first chunk of the next round has.
fn two_rounds(alloc: Global, turns: [bool; 3]) -> Result<([Option<u32>; 3], usize), Memory> {
    let (round, seats) = Arena::make(alloc, 2)?.open_round(alloc, 2)?;
    let mut seats = seats.into_vec();
    let mut second = next_seat(&round, &mut seats);
    let mut first = next_seat(&round, &mut seats);
    let found = take_turns(turns, &mut first, &mut second, &round);
    let arena = close_two(alloc, round, first, second)?;
    let (round, seats) = arena.open_round(alloc, 1)?;
    let mut seat = next_seat(&round, &mut seats.into_vec());
    match seat.claim(&round) {
        Claim::Chunk(_, chunk) => Ok((found, chunk.len())),
        Claim::Full => Ok((found, CHUNK_PLACES)),
    }
}

#[test]
fn three_claims_of_two_seats_take_two_chunks_in_turn(rt: HostRuntime) -> Result<(), Memory> {
    for row in 0..8u8 {
        let turns = [row & 1 == 0, row & 2 == 0, row & 4 == 0];
        let (found, left) = two_rounds(rt.alloc(), turns)?;
        assert_eq!(rt; found, [Some(0), Some(1), None], "row {row}");
        assert_eq!(rt; left, 0, "row {row}");
    }
    Ok(())
}

#[test]
fn an_arena_of_no_chunks_is_full_at_once(rt: HostRuntime) -> Result<(), Memory> {
    let (round, seats) = Arena::make(rt.alloc(), 0)?.open_round(rt.alloc(), 2)?;
    let mut seats = seats.into_vec();
    let mut second = next_seat(&round, &mut seats);
    let mut first = next_seat(&round, &mut seats);
    assert_eq!(rt; use_chunk(&mut first, &round), None);
    assert_eq!(rt; use_chunk(&mut second, &round), None);
    assert!(rt; close_two(rt.alloc(), round, first, second).is_ok());
    Ok(())
}

#[test]
fn a_chunk_hands_back_the_value_after_1024(rt: HostRuntime) -> Result<(), Memory> {
    let mut chunk = Chunk::make(rt.alloc())?;
    for value in 0..CHUNK_PLACES {
        assert_eq!(rt; chunk.push(value), None);
    }
    assert_eq!(rt; chunk.push(7), Some(7));
    assert_eq!(rt; chunk.len(), 1024);
    assert_eq!(rt; chunk.get(1023), Some(&1023));
    assert_eq!(rt; chunk.get(1024), None);
    assert_eq!(rt; chunk.get(1025), None);
    Ok(())
}

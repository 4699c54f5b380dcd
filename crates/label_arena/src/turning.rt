// The slots of a seat's token stand in a row, the newest first, and only the first of them is reached.
ghost use Rattle.std.specs.Prelude.{◌≡◌, ℕ, ◌-◌, ◌<◌, length, slice_index};
ghost use Rattle.label_arena.specs.Counting.{times};
ghost use Rattle.label_arena.specs.Holding.{turned_by};

use crate::seats::Token;

/// How many slots were taken after the one of that number.
pub(crate) fn taken_after(order: &[u32], number: u32) -> usize
    requires { 0 < times number order.now }
    ensures place { result < length order.now }
    ensures found { slice_index order.now (length order.now - 1 - result) ≡ number }
{
    let mut after = 0;
    'counting: while order[order.len() - 1 - after] != number {
        after += 1;
    }
    after
}

/// Turns the row that many times: the first goes behind the others.
pub(crate) fn turn<T>(token: &mut Token<T>, turns: usize)
    ensures table { token.new.table_id ≡ token.old.table_id }
    ensures row { token.new.me ≡ (token.old.me.0, turned_by turns token.old.me.1) }
{
    'turning: for _ in 0..turns {
        token.turn();
    }
}

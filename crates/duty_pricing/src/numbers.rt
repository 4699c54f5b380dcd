// The numbers of the chunks that a pricing holds.
ghost use Rattle.std.specs.Prelude.{◌≡◌, ◌<◌, [], ◌∷◌, ◌++◌, length, IfOk, IfSome, IfNone};

use crate::chunks::CHUNKS;
use minute_line::Memory;
use std::alloc::Global;
use std::marker::Model;

/// A list of at most 2,048 numbers, which takes no memory when it grows.
#[derive(Drop)]
pub struct Numbers {
    numbers: Vec<u32>,
}

impl Model for Numbers {
    ghost use Rattle.std.specs.Prelude.{ℕ, ◌≤◌, List, vec_capacity};

    ghost Value = { List ℕ };

    ghost view = { λ s. s.numbers.items };

    ghost invariant = { λ s. 2048 ≤ vec_capacity s.numbers };
}

impl Numbers {
    /// The empty list.
    pub(crate) fn with_room(alloc: Global) -> Result<Numbers, Memory>
        ensures { IfOk result (λ numbers. numbers ≡ []) }
    {
        Ok(Numbers {
            numbers: Vec::with_capacity(alloc, CHUNKS)?,
        })
    }

    /// Adds a number at the end.
    pub(crate) fn push(&mut self, number: u32)
        requires { length self.old < 2048 }
        ensures { self.new ≡ self.old ++ number ∷ [] }
    {
        self.numbers.push_reserved(number);
    }

    /// The last number, which is taken away.
    pub(crate) fn pop(&mut self) -> Option<u32>
        ensures some { IfSome result (λ number. self.old ≡ self.new ++ number ∷ []) }
        ensures none { IfNone result ((self.old ≡ []) × (self.new ≡ [])) }
    {
        self.numbers.pop()
    }
}

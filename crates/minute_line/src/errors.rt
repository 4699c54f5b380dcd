// Why a text is no history.
ghost use Rattle.std.specs.Prelude.{◌≡◌};
ghost use Rattle.minute_line.specs.declared.errors.TextError.TheVariants.{Memory as WantOfMemory};

use crate::many::Memory;

/// Why a text was not read.
#[derive(Clone, Copy, PartialEq, Eq, Debug)]
pub enum TextError {
    /// The text is the text of no history.
    Bad,
    /// Want of memory.
    Memory,
}

impl From<Memory> for TextError {
    ghost from_gives = { λ _ e. e ≡ WantOfMemory };

    fn from(_error: Memory) -> TextError {
        TextError::Memory
    }
}

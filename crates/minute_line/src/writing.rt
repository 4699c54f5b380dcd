// Lines of text, word by word: each word after the first has a space before it.
ghost use Rattle.std.specs.Prelude.{◌≡◌, ◌++◌, ◌∷◌, OnOk, OnErr};
ghost use Rattle.std.specs.Fmt.{decimal};
ghost use Rattle.std.specs.Io.{StartsWith};

use crate::many::{Bytes, Memory};

/// Adds a number in plain decimal, without leading zeros. Where memory wants, some of its digits may stand after the text.
pub fn push_decimal(text: &mut Bytes, number: u64) -> Result<(), Memory>
    ensures ok { OnOk result (text.new ≡ text.old ++ decimal number) }
    ensures err { OnErr result (StartsWith text.new text.old) }
{
    if number < 10 {
        text.push(b'0' + number as u8)?;
        return Ok(());
    }
    push_decimal(text, number / 10)?;
    text.push(b'0' + (number % 10) as u8)?;
    Ok(())
}

/// Adds a space and a word. Where memory wants, the space may stand after the text.
pub fn push_word(text: &mut Bytes, word: &[u8]) -> Result<(), Memory>
    ensures ok { OnOk result (text.new ≡ text.old ++ 32 ∷ word.now) }
    ensures err { OnErr result (StartsWith text.new text.old) }
{
    text.push(b' ')?;
    text.extend_from_slice(word)
}

/// Adds a space and a number in plain decimal. Where memory wants, a part of these may stand after the text.
pub fn push_number(text: &mut Bytes, number: u64) -> Result<(), Memory>
    ensures ok { OnOk result (text.new ≡ text.old ++ 32 ∷ decimal number) }
    ensures err { OnErr result (StartsWith text.new text.old) }
{
    text.push(b' ')?;
    push_decimal(text, number)
}

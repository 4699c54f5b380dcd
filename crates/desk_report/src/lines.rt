// Lines of words and numbers.
ghost use Rattle.std.specs.Prelude.{◌≡◌, ◌∷◌, [], OnOk};
ghost use Rattle.std.specs.Fmt.{decimal};
ghost use Rattle.minute_line.specs.Writing.{with_line};

use minute_line::{Bytes, Memory, push_number, push_word};

/// Adds a line of two words.
pub(crate) fn push_line(text: &mut Bytes, word: &[u8], value: &[u8]) -> Result<(), Memory>
    ensures { OnOk result (text.new ≡ with_line text.old word.now (value.now ∷ [])) }
{
    text.extend_from_slice(word)?;
    push_word(text, value)?;
    text.push(b'\n')
}

/// Adds a line of a word and a number.
pub(crate) fn push_number_line(text: &mut Bytes, word: &[u8], n: u64) -> Result<(), Memory>
    ensures { OnOk result (text.new ≡ with_line text.old word.now (decimal n ∷ [])) }
{
    text.extend_from_slice(word)?;
    push_number(text, n)?;
    text.push(b'\n')
}

/// Adds a line of three words.
pub(crate) fn push_long_line(
    text: &mut Bytes,
    word: &[u8],
    name: &[u8],
    value: &[u8],
) -> Result<(), Memory>
    ensures { OnOk result (text.new ≡ with_line text.old word.now (name.now ∷ value.now ∷ [])) }
{
    text.extend_from_slice(word)?;
    push_word(text, name)?;
    push_word(text, value)?;
    text.push(b'\n')
}

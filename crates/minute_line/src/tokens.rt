// The tokens of a history's text. Every text has tokens: what it should not have shows once they are written again.
ghost use Rattle.std.specs.Prelude.{◌≡◌, ◌≤◌, true, IfOk};
ghost use Rattle.minute_line.specs.Tokens.{is_separator, is_digit, grown, tokens_of, value_at, mark_of, kind_of, stint_of, stints_of};

use crate::many::{Many, Memory};
use crate::marks::{Kind, Mark, Stint};
use std::alloc::Global;

/// A letter, or 0 for none, and a number.
#[derive(Clone, Copy, Debug)]
pub struct Token {
    pub letter: u8,
    pub value: u32,
}

/// Whether the byte is a space or a comma.
fn separates(byte: u8) -> bool
    ensures { result ≡ is_separator byte }
{
    byte == b' ' || byte == b','
}

/// Whether the byte is a digit.
fn counts(byte: u8) -> bool
    ensures { result ≡ is_digit byte }
{
    byte >= b'0' && byte <= b'9'
}

/// The number with one more digit; one above 1,000,000 stays.
fn grow(value: u32, byte: u8) -> u32
    requires small { value ≤ 11000000 }
    requires digit { is_digit byte ≡ true }
    ensures value { result ≡ grown value byte }
    ensures small { result ≤ 11000000 }
{
    if value <= 1_000_000 {
        10 * value + (byte - b'0') as u32
    } else {
        value
    }
}

/// The tokens of a text.
pub fn tokens(alloc: Global, text: &[u8]) -> Result<Many<Token>, Memory>
    ensures { IfOk result (λ tokens. tokens ≡ tokens_of text.now) }
{
    let mut done = Many::new(alloc);
    let mut letter = 0;
    let mut value = 0;
    for byte in text {
        if separates(*byte) {
            done.push(Token { letter, value })?;
            letter = 0;
            value = 0;
        } else if counts(*byte) {
            value = grow(value, *byte);
        } else {
            letter = *byte;
        }
    }
    done.push(Token { letter, value })?;
    Ok(done)
}

/// The number of the token at that place, 0 where there is none.
pub fn number(tokens: &[Token], place: usize) -> u32
    ensures { result ≡ value_at tokens.now place }
{
    match tokens.get(place) {
        Some(token) => token.value,
        None => 0,
    }
}

/// The mark that a letter stands for.
fn mark(letter: u8) -> Mark
    ensures { result ≡ mark_of letter }
{
    match letter {
        b'D' => Mark::Drive,
        b'W' => Mark::Work,
        b'R' => Mark::Ready,
        _ => Mark::Off,
    }
}

/// The kind that a letter stands for.
fn kind(letter: u8) -> Kind
    ensures { result ≡ kind_of letter }
{
    match letter {
        b'N' => Kind::Daily,
        _ => Kind::Plain,
    }
}

/// The stint that a token stands for.
fn stint(token: &Token) -> Stint
    ensures { result ≡ stint_of token.now }
{
    Stint {
        mark: mark(token.letter),
        minutes: token.value,
        kind: kind(token.letter),
    }
}

/// The stints of tokens, without the minus sign that stands for none.
pub fn stints(alloc: Global, tokens: &[Token]) -> Result<Many<Stint>, Memory>
    ensures { IfOk result (λ stints. stints ≡ stints_of tokens.now) }
{
    let mut out = Many::new(alloc);
    for token in tokens {
        if token.letter != b'-' {
            out.push(stint(token))?;
        }
    }
    Ok(out)
}

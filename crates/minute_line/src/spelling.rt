// The text that a history is written as: seven parts, with a space between each two.
ghost use Rattle.std.specs.Prelude.{◌≡◌, ◌++◌, ◌∷◌, [], OnOk, IfOk};
ghost use Rattle.std.specs.Fmt.{decimal};
ghost use Rattle.std.specs.List.{flat_map};
ghost use Rattle.minute_line.specs.Histories.{fields_of};
ghost use Rattle.minute_line.specs.Spelling.{letter_of, stint_text, numbers_text, stints_text, older_spelling, spelling};

use crate::lines::History;
use crate::many::{Bytes, Many, Memory};
use crate::marks::{Kind, Mark, Stint};
use crate::writing::{push_decimal, push_number};
use std::alloc::Global;

/// Adds numbers, each with a comma before it.
fn push_more_numbers(out: &mut Bytes, numbers: &[u32]) -> Result<(), Memory>
    ensures { OnOk result (out.new ≡ out.old ++ flat_map (λ m. 44 ∷ decimal m) numbers.now) }
{
    for number in numbers {
        out.push(b',')?;
        push_decimal(out, *number as u64)?;
    }
    Ok(())
}

/// Adds numbers, with a comma between each two.
fn push_numbers(out: &mut Bytes, numbers: &[u32]) -> Result<(), Memory>
    ensures { OnOk result (out.new ≡ out.old ++ numbers_text numbers.now) }
{
    match numbers {
        [] => Ok(()),
        [first, rest @ ..] => {
            push_decimal(out, *first as u64)?;
            push_more_numbers(out, rest)
        }
    }
}

/// The letter of a stint.
fn letter(mark: Mark, kind: Kind) -> u8
    ensures { result ≡ letter_of mark kind }
{
    match mark {
        Mark::Drive => b'D',
        Mark::Work => b'W',
        Mark::Ready => b'R',
        Mark::Off => match kind {
            Kind::Plain => b'P',
            Kind::Daily => b'N',
            Kind::Weekly => b'?',
        },
    }
}

/// Adds a stint.
fn push_stint(out: &mut Bytes, stint: &Stint) -> Result<(), Memory>
    ensures { OnOk result (out.new ≡ out.old ++ stint_text stint.now) }
{
    out.push(letter(stint.mark, stint.kind))?;
    push_decimal(out, stint.minutes as u64)
}

/// Adds stints, each with a comma before it.
fn push_more_stints(out: &mut Bytes, stints: &[Stint]) -> Result<(), Memory>
    ensures { OnOk result (out.new ≡ out.old ++ flat_map (λ t. 44 ∷ stint_text t) stints.now) }
{
    for stint in stints {
        out.push(b',')?;
        push_stint(out, stint)?;
    }
    Ok(())
}

/// Adds stints, with a comma between each two, or a minus sign for none.
fn push_stints(out: &mut Bytes, stints: &[Stint]) -> Result<(), Memory>
    ensures { OnOk result (out.new ≡ out.old ++ stints_text stints.now) }
{
    match stints {
        [] => out.push(b'-'),
        [first, rest @ ..] => {
            push_stint(out, first)?;
            push_more_stints(out, rest)
        }
    }
}

/// The text of a history without its debt: the five parts that its text begins with.
fn older_text(alloc: Global, history: &History) -> Result<Bytes, Memory>
    ensures { IfOk result (λ text. text ≡ older_spelling (fields_of history.now)) }
{
    let mut text = Many::new(alloc);
    push_decimal(&mut text, history.prev_weekly as u64)?;
    text.push(b' ')?;
    push_decimal(&mut text, history.prev_drive as u64)?;
    text.push(b' ')?;
    push_numbers(&mut text, &history.work16)?;
    text.push(b' ')?;
    push_decimal(&mut text, history.open_off as u64)?;
    text.push(b' ')?;
    push_stints(&mut text, history.stints.stints.as_slice())?;
    Ok(text)
}

/// The text of a history: `prev_weekly`, `prev_drive`, the sixteen numbers of `work16`, `open_off`, the stints, `owed`
/// and `due`, with a space between each two of these and a comma between each two numbers or stints. A stint is a letter
/// and its minutes: D drive, W work, R ready, P off plain, N a daily rest; `-` stands for no stints.
pub fn history_text(alloc: Global, history: &History) -> Result<Bytes, Memory>
    ensures { IfOk result (λ text. text ≡ spelling (fields_of history.now)) }
{
    let mut text = older_text(alloc, history)?;
    push_number(&mut text, history.owed as u64)?;
    push_number(&mut text, history.due as u64)?;
    Ok(text)
}

/// A text is the text of one history: where two histories have one text, their fields are equal.
pub fn text_says_all(one: &History, other: &History)
    requires { spelling (fields_of one.now) ≡ spelling (fields_of other.now) }
    ensures { fields_of one.now ≡ fields_of other.now }
{}

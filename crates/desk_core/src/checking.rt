// The verdicts on what was driven.
ghost use Rattle.std.specs.Prelude.{◌≡◌, ◌≤◌, [], length, option_map, IfOk, OnOk};
ghost use Rattle.minute_line.specs.declared.lines.TheConstants.{WEEK_MINUTES};
ghost use Rattle.minute_line.specs.Writing.{with_words};
ghost use Rattle.minute_line.specs.Histories.{fields_of};
ghost use Rattle.minute_line.specs.Minutes.{total_of};
ghost use Rattle.week_book.specs.Pasts.{HasPastRows};
ghost use Rattle.desk_csv.specs.declared.reading.TheConstants.{TEXT_LIMIT};
ghost use Rattle.desk_core.specs.Refusing.{Meets};
ghost use Rattle.desk_core.specs.Causes.{HasCause, RefusedFor};
ghost use Rattle.desk_core.specs.Checking.{or_fresh, broken_words, line_or_refusal, verdict_line, driver_said, drivers_said, check_said};

use crate::planning::past_in;
use crate::refusals::{Stop, stop_line};
use desk_csv::{Form, read_rows};
use driver_history::read_line;
use hours_rules::{Broken, Verdict, judge, number};
use minute_line::{
    Bytes, History, Line, Many, Memory, Name, fresh, push_decimal, push_number, push_word,
};
use std::alloc::Global;
use week_book::{Row, check_did};

/// The history of a driver, who was at rest where there are no history rows.
fn past_or_fresh(alloc: Global, past: Option<History>) -> History
    ensures { fields_of result ≡ or_fresh (option_map fields_of past) }
{
    match past {
        Some(past) => past,
        None => fresh(alloc),
    }
}

/// What a driver drove.
fn line_in(alloc: Global, rows: &Many<Row>, name: &Name) -> Result<Line, Stop>
    requires { HasPastRows rows.now }
    ensures line { Meets (λ line. line.stints) result (line_or_refusal rows.now name.now) }
    ensures total { IfOk result (λ line. total_of line.stints ≤ WEEK_MINUTES) }
    ensures cause { RefusedFor HasCause result }
{
    match read_line(alloc, rows, name) {
        Ok(line) => Ok(line),
        Err(error) => Err(stop_line(Many::from_slice(alloc, name.as_slice())?, error)),
    }
}

fn push_broken(text: &mut Bytes, broken: Broken) -> Result<(), Memory>
    ensures { OnOk result (text.new ≡ with_words text.old (broken_words broken)) }
{
    push_word(text, b"broken")?;
    push_word(text, b"H")?;
    push_decimal(text, number(broken.rule) as u64)?;
    push_number(text, broken.minute as u64)
}

fn push_verdict(text: &mut Bytes, name: &Name, verdict: Verdict) -> Result<(), Memory>
    ensures { OnOk result (text.new ≡ verdict_line text.old name.now verdict) }
{
    text.extend_from_slice(name.as_slice())?;
    match verdict {
        Verdict::Lawful => push_word(text, b"lawful")?,
        Verdict::Broken(broken) => push_broken(text, broken)?,
    }
    text.push(b'\n')
}

/// Adds the line of a driver, whose history is read before what was driven.
fn push_driver(alloc: Global, text: &mut Bytes, rows: &Many<Row>, name: &Name) -> Result<(), Stop>
    requires { HasPastRows rows.now }
    ensures line { Meets (λ _. text.new) result (driver_said rows.now text.old name.now) }
    ensures cause { RefusedFor HasCause result }
{
    let past = past_or_fresh(alloc, past_in(alloc, rows, name)?);
    let line = line_in(alloc, rows, name)?;
    let verdict = judge(&past, &line);
    push_verdict(text, name, verdict)?;
    Ok(())
}

/// The lines of drivers, in their order.
fn lines_in(alloc: Global, rows: &Many<Row>, names: &[Name]) -> Result<Bytes, Stop>
    requires { HasPastRows rows.now }
    ensures lines { Meets (λ lines. lines) result (drivers_said rows.now [] names.now) }
    ensures cause { RefusedFor HasCause result }
{
    let mut lines = Many::new(alloc);
    for name in names {
        push_driver(alloc, &mut lines, rows, name)?;
    }
    Ok(lines)
}

/// What the judge finds of each driver of a check text: a line `<name> lawful`, or `<name> broken <rule> <minute>` with
/// the first week minute at which a rule fails and the least rule there. A driver without history rows is judged after
/// `fresh`.
pub fn check_text(alloc: Global, text: &Bytes) -> Result<Bytes, Stop>
    requires { length text.now ≤ TEXT_LIMIT }
    ensures lines { Meets (λ lines. lines) result (check_said text.now) }
    ensures cause { RefusedFor HasCause result }
{
    let rows = read_rows(alloc, text, Form::Check)?;
    let names = check_did(alloc, &rows)?;
    lines_in(alloc, &rows, names.as_slice())
}

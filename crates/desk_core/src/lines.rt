// The line that says why a command is refused, word by word.
ghost use Rattle.std.specs.Prelude.{◌≡◌, ◌∷◌, [], IfOk, OnOk, IfSome, option_map, codes};
ghost use Rattle.std.specs.Fmt.{decimal};
ghost use Rattle.minute_line.specs.DateWriting.{IsDayText};
ghost use Rattle.minute_line.specs.Writing.{with_words};
ghost use Rattle.desk_core.specs.Lines.{csv_words, what_word, week_words, past_words, line_words, named_monday, refusal_words, IsRefusalText};

use crate::refusals::Refusal;
use desk_csv::CsvError;
use driver_history::{HistoryError, LineError};
use minute_line::{Bytes, Memory, Monday, monday_text, push_number, push_word};
use std::alloc::Global;
use week_book::{WeekError, What};

/// The line for a keeper that failed.
pub const KEEPER_FAULT: &[u8] = b"refused keeper\n";

fn push_one(text: &mut Bytes, word: &[u8], number: u64) -> Result<(), Memory>
    ensures { OnOk result (text.new ≡ with_words text.old (word.now ∷ decimal number ∷ [])) }
{
    push_word(text, word)?;
    push_number(text, number)
}

fn push_two(text: &mut Bytes, word: &[u8], first: u64, second: u64) -> Result<(), Memory>
    ensures { OnOk result (text.new ≡ with_words text.old (word.now ∷ decimal first ∷ decimal second ∷ [])) }
{
    push_one(text, word, first)?;
    push_number(text, second)
}

fn push_csv(text: &mut Bytes, error: CsvError) -> Result<(), Memory>
    ensures { OnOk result (text.new ≡ with_words text.old (csv_words error)) }
{
    match error {
        CsvError::Utf8(byte) => push_one(text, b"utf8", byte as u64),
        CsvError::Word(row) => push_one(text, b"word", row as u64),
        CsvError::Fields(row, n) => push_two(text, b"fields", row as u64, n as u64),
        CsvError::Number(row, field) => push_two(text, b"number", row as u64, field as u64),
        CsvError::Stamp(row, field) => push_two(text, b"stamp", row as u64, field as u64),
        CsvError::Memory => Ok(()),
    }
}

fn push_count(text: &mut Bytes, what: What, n: u32) -> Result<(), Memory>
    ensures { OnOk result (text.new ≡ with_words text.old (codes "count" ∷ what_word what ∷ decimal n ∷ [])) }
{
    push_word(text, b"count")?;
    match what {
        What::Places => push_one(text, b"places", n as u64),
        What::Legs => push_one(text, b"legs", n as u64),
        What::Drivers => push_one(text, b"drivers", n as u64),
        What::Orders => push_one(text, b"orders", n as u64),
    }
}

fn push_week(text: &mut Bytes, error: WeekError) -> Result<(), Memory>
    ensures { OnOk result (text.new ≡ with_words text.old (week_words error)) }
{
    match error {
        WeekError::Count(what, n) => push_count(text, what, n),
        WeekError::NoDepot => push_word(text, b"depot"),
        WeekError::Range(row, field) => push_two(text, b"range", row as u64, field as u64),
        WeekError::Double(row) => push_one(text, b"double", row as u64),
        WeekError::Unknown(row, field) => push_two(text, b"unknown", row as u64, field as u64),
        WeekError::Memory => Ok(()),
    }
}

fn push_past(text: &mut Bytes, error: HistoryError) -> Result<(), Memory>
    ensures { OnOk result (text.new ≡ with_words text.old (past_words error)) }
{
    match error {
        HistoryError::NoRest => push_word(text, b"rest"),
        HistoryError::NoWorked => push_word(text, b"worked"),
        HistoryError::LateWeekly(row) => push_one(text, b"weekly", row as u64),
        HistoryError::TwoOffs(row) => push_one(text, b"off", row as u64),
        HistoryError::NotToMonday(sum, needed) => push_two(text, b"sum", sum, needed),
        HistoryError::OverLong(minutes) => push_one(text, b"long", minutes),
        HistoryError::Memory => Ok(()),
    }
}

fn push_line(text: &mut Bytes, error: LineError) -> Result<(), Memory>
    ensures { OnOk result (text.new ≡ with_words text.old (line_words error)) }
{
    match error {
        LineError::TwoOffs(row) => push_one(text, b"off", row as u64),
        LineError::TooLong(minutes) => push_one(text, b"long", minutes),
        LineError::Memory => Ok(()),
    }
}

fn push_driver(text: &mut Bytes, word: &[u8], name: &[u8]) -> Result<(), Memory>
    ensures { OnOk result (text.new ≡ with_words text.old (word.now ∷ name.now ∷ [])) }
{
    push_word(text, word)?;
    push_word(text, name)
}

fn push_dated(text: &mut Bytes, word: &[u8], day: &[u8]) -> Result<(), Memory>
    ensures { OnOk result (text.new ≡ with_words text.old (word.now ∷ day.now ∷ [])) }
{
    push_word(text, word)?;
    push_word(text, day)
}

fn push_issue(text: &mut Bytes, day: &[u8], receipt: u64) -> Result<(), Memory>
    ensures { OnOk result (text.new ≡ with_words text.old (codes "published" ∷ day.now ∷ codes "receipt" ∷ decimal receipt ∷ [])) }
{
    push_dated(text, b"published", day)?;
    push_one(text, b"receipt", receipt)
}

fn push_later(text: &mut Bytes, name: &[u8], day: &[u8]) -> Result<(), Memory>
    ensures { OnOk result (text.new ≡ with_words text.old (codes "later" ∷ name.now ∷ day.now ∷ [])) }
{
    push_driver(text, b"later", name)?;
    push_word(text, day)
}

/// The Monday that a refusal names, if it names one.
fn named_monday(refusal: &Refusal) -> Option<Monday>
    ensures { option_map (λ monday. monday.day) result ≡ named_monday refusal.now }
{
    match refusal {
        Refusal::Published(monday, _)
        | Refusal::NoDraft(monday)
        | Refusal::Later(_, monday)
        | Refusal::DraftsFull(monday) => Some(*monday),
        Refusal::Long
        | Refusal::Csv(_)
        | Refusal::Week(_)
        | Refusal::Past(_, _)
        | Refusal::Line(_, _)
        | Refusal::Stale(_, _)
        | Refusal::Moved(_)
        | Refusal::Kept(_)
        | Refusal::NoHistory(_) => None,
    }
}

/// The text of the Monday that a refusal names; any text where it names none.
fn day_of(refusal: &Refusal) -> [u8; 10]
    ensures { IfSome (named_monday refusal.now) (λ monday. IsDayText monday result) }
{
    match named_monday(refusal) {
        Some(monday) => monday_text(monday),
        None => [0; 10],
    }
}

fn push_refusal(text: &mut Bytes, day: &[u8], refusal: &Refusal) -> Result<(), Memory>
    ensures { OnOk result (text.new ≡ with_words text.old (refusal_words day.now refusal.now)) }
{
    match refusal {
        Refusal::Long => push_word(text, b"long"),
        Refusal::Csv(error) => push_csv(text, *error),
        Refusal::Week(error) => push_week(text, *error),
        Refusal::Past(name, error) => {
            push_driver(text, b"past", name.as_slice())?;
            push_past(text, *error)
        }
        Refusal::Line(name, error) => {
            push_driver(text, b"line", name.as_slice())?;
            push_line(text, *error)
        }
        Refusal::Published(_, receipt) => push_issue(text, day, *receipt),
        Refusal::NoDraft(_) => push_dated(text, b"draft", day),
        Refusal::Stale(named, now) => push_two(text, b"stale", *named, *now),
        Refusal::Moved(name) => push_driver(text, b"moved", name.as_slice()),
        Refusal::Kept(name) => push_driver(text, b"kept", name.as_slice()),
        Refusal::Later(name, _) => push_later(text, name.as_slice(), day),
        Refusal::NoHistory(name) => push_driver(text, b"history", name.as_slice()),
        Refusal::DraftsFull(_) => push_dated(text, b"full", day),
    }
}

/// The line of a refusal, with its line feed: `refused`, its word, and where it is or what it found.
pub fn refusal_line(alloc: Global, refusal: &Refusal) -> Result<Bytes, Memory>
    ensures { IfOk result (IsRefusalText refusal.now) }
{
    let day = day_of(refusal);
    let mut text = Bytes::from_slice(alloc, b"refused")?;
    push_refusal(&mut text, &day, refusal)?;
    text.push(b'\n')?;
    Ok(text)
}

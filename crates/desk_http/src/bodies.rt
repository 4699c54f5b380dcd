// The body of a request: how long its headers say that it is, and what a publication's says.
ghost use Rattle.std.specs.Prelude.{◌≡◌, ◌∷◌, [], ◌≤◌, ◌<◌, ◌↔◌, IsTrue, IfOk, IfSome, MatchOption, map, option_map};
ghost use Rattle.desk_csv.specs.declared.reading.TheConstants.{TEXT_LIMIT};
ghost use Rattle.httparse.specs.Borrowed.{header_parts};
ghost use Rattle.desk_http.specs.Bodies.{is_named, values_of, lone_value, length_said, value_of, revision_of, monday_in, publication_of, publication_in};
ghost use Rattle.serde_json.specs.View.{view};

use crate::early::Early;
use desk_csv::{TEXT_LIMIT, read_monday, read_number};
use httparse::Header;
use minute_line::{Memory, Monday};
use serde_json::Value;
use std::alloc::Global;
use std::str;

/// The value of the first header of that name, and the headers after it. Names are the same where they differ in the case of
/// ASCII letters alone.
fn first_value<'h, 'b>(
    headers: &'h [Header<'b>],
    name: &str,
) -> Option<(&'b [u8], &'h [Header<'b>])>
    ensures { MatchOption result (values_of name.now (map header_parts headers.now) ≡ []) (λ found.
        values_of name.now (map header_parts headers.now) ≡ found.0.now ∷ values_of name.now (map header_parts found.1.now)) }
{
    match headers {
        [] => None,
        [header, rest @ ..] => {
            if header.name.eq_ignore_ascii_case(name) {
                return Some((header.value, rest));
            }
            first_value(rest, name)
        }
    }
}

/// The value of the header of that name, where there is just one.
fn lone_value<'b>(headers: &[Header<'b>], name: &str) -> Option<&'b [u8]>
    ensures { option_map (λ value. value.now) result ≡ lone_value name.now (map header_parts headers.now) }
{
    let (value, rest) = first_value(headers, name)?;
    match first_value(rest, name) {
        Some(_) => None,
        None => Some(value),
    }
}

/// The length that the headers say of the body.
pub(crate) fn length_in(headers: &[Header<'_>]) -> Result<usize, Early>
    ensures length { result ≡ length_said (map header_parts headers.now) }
    ensures limit { IfOk result (λ length. length ≤ TEXT_LIMIT) }
{
    if first_value(headers, "transfer-encoding").is_some() {
        return Err(Early::Bad);
    }
    let Some(value) = lone_value(headers, "content-length") else {
        return Err(Early::Bad);
    };
    match read_number(value) {
        Some(length) if length <= TEXT_LIMIT as u64 => Ok(length as usize),
        Some(_) => Err(Early::Long),
        None => Err(Early::Bad),
    }
}

/// The value that a text in JSON is.
fn value_of(alloc: Global, body: &[u8]) -> Result<Option<Value>, Memory>
    ensures { IfOk result (λ value. option_map view value ≡ value_of body.now) }
{
    let Ok(text) = str::from_utf8(body) else {
        return Ok(None);
    };
    match Value::from_str(alloc, text) {
        Ok(value) => Ok(Some(value)),
        Err(error) => {
            if error.is_memory() {
                return Err(Memory);
            }
            Ok(None)
        }
    }
}

/// A revision: a whole number from 1 to 1,000,000.
fn revision_of(value: &Value) -> Option<u64>
    ensures { result ≡ revision_of (view value.now) }
{
    let revision = value.get("revision").and_then(Value::as_u64)?;
    if revision < 1 || revision > 1_000_000 {
        return None;
    }
    Some(revision)
}

/// The Monday of a week: a text.
fn week_of(value: &Value) -> Option<Monday>
    ensures { result ≡ monday_in (view value.now) }
{
    let text = value.get("monday").and_then(Value::as_str)?;
    read_monday(text.as_bytes())
}

/// The week and the revision of a value: its members `monday` and `revision`.
fn publication_of(value: &Value) -> Option<(Monday, u64)>
    ensures { result ≡ publication_of (view value.now) }
{
    let monday = week_of(value)?;
    let revision = revision_of(value)?;
    Some((monday, revision))
}

/// The week and the revision that the body of a publication names. None where it is no object in JSON that does.
pub(crate) fn publication_in(alloc: Global, body: &[u8]) -> Result<Option<(Monday, u64)>, Memory>
    ensures { IfOk result (λ named. named ≡ publication_in body.now) }
{
    match value_of(alloc, body)? {
        Some(value) => Ok(publication_of(&value)),
        None => Ok(None),
    }
}

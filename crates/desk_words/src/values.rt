// The values of the options.
ghost use Rattle.std.specs.Prelude.{◌≡◌, ◌≤◌, IfSome, option_map, option_and_then, codes};
ghost use Rattle.clap.specs.Words.{first_of, found_of, rows_of};
ghost use Rattle.desk_words.specs.Values.{number_of, within, number_given, monday_given, values_of, IsGivenWithin, AreInRange};

use clap::ArgMatches;
use desk_csv::{read_digits, read_monday};
use minute_line::Monday;

/// The values of the options that are given.
#[derive(Clone, Copy, Debug)]
pub(crate) struct Values {
    pub(crate) labels: Option<u32>,
    pub(crate) nodes: Option<u32>,
    pub(crate) rounds: Option<u32>,
    pub(crate) seed: Option<u32>,
    pub(crate) monday: Option<Monday>,
    pub(crate) rev: Option<u32>,
    pub(crate) port: Option<u32>,
    pub(crate) count: Option<u32>,
}

/// The number of a text of 1 to 9 ASCII digits.
fn number_of(text: &[u8]) -> Option<u64>
    ensures { result ≡ number_of text.now }
{
    if text.is_empty() || text.len() > 9 {
        return None;
    }
    read_digits(text)
}

/// The number of a text, from `low` to `high`.
fn number_within(text: &[u8], low: u32, high: u32) -> Option<u32>
    ensures number { result ≡ option_and_then (within low high) (number_of text.now) }
    ensures in_range { IfSome result (λ n. (low ≤ n) × (n ≤ high)) }
{
    let number = number_of(text)?;
    if number < low as u64 || number > high as u64 {
        return None;
    }
    Some(number as u32)
}

/// The value of the option of that name, as text.
pub(crate) fn text_at<'a>(matches: &ArgMatches<'a>, name: &str) -> Option<&'a str>
    ensures { option_map (λ s. s.now) result ≡ first_of name.now (rows_of (found_of matches.now)) }
{
    matches.get_str(name)
}

/// The number that an option gives, from `low` to `high`, or that it is not given.
fn number_at(matches: &ArgMatches<'_>, name: &str, low: u32, high: u32) -> Option<Option<u32>>
    ensures given { result ≡ number_given low high (first_of name.now (rows_of (found_of matches.now))) }
    ensures in_range { IfSome result (IsGivenWithin low high) }
{
    let Some(text) = text_at(matches, name) else {
        return Some(None);
    };
    let number = number_within(text.as_bytes(), low, high)?;
    Some(Some(number))
}

/// The Monday that its option gives, or that it is not given.
fn monday_at(matches: &ArgMatches<'_>) -> Option<Option<Monday>>
    ensures { result ≡ monday_given (first_of (codes "monday") (rows_of (found_of matches.now))) }
{
    let Some(text) = text_at(matches, "monday") else {
        return Some(None);
    };
    let monday = read_monday(text.as_bytes())?;
    Some(Some(monday))
}

/// The values of all options.
pub(crate) fn values_in(matches: &ArgMatches<'_>) -> Option<Values>
    ensures values { result ≡ values_of (rows_of (found_of matches.now)) }
    ensures in_range { IfSome result AreInRange }
{
    let labels = number_at(matches, "labels", 0, 2_097_152)?;
    let nodes = number_at(matches, "nodes", 1, 4095)?;
    let rounds = number_at(matches, "rounds", 1, 100)?;
    let seed = number_at(matches, "seed", 0, 999_999_999)?;
    let monday = monday_at(matches)?;
    let rev = number_at(matches, "rev", 1, 1_000_000)?;
    let port = number_at(matches, "port", 1, 65535)?;
    let count = number_at(matches, "count", 1, 10000)?;
    Some(Values {
        labels,
        nodes,
        rounds,
        seed,
        monday,
        rev,
        port,
        count,
    })
}

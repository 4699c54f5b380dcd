// What the words of the command line ask for.
ghost use Rattle.std.specs.Prelude.{◌≡◌, ◌≤◌, IfOk, IfSome, MatchResult, Some, None, map, option_map, string_bytes, codes};
ghost use Rattle.duty_plan.specs.Trees.{IsLimits};
ghost use Rattle.clap.specs.Words.{found_of, rows_of};
ghost use Rattle.desk_words.specs.Asks.{has_budget, has_draft, has_server, limits_or, plan_of, check_of, publish_of, only_monday, show_of, export_of, make_of, serve_of, ask_of, asked_in, has_dashes, command_asked, asked_by};
ghost use Rattle.desk_words.specs.Asked.{IsAsked};
ghost use Rattle.desk_words.specs.Values.{AreInRange};
ghost use Rattle.desk_words.specs.declared.words_error.WordsError.TheVariants.{Usage as IsUsage};

use crate::command::matches_in;
use crate::values::{Values, text_at, values_in};
use crate::words_error::WordsError;
use clap::ArgMatches;
use duty_plan::Limits;
use minute_line::Monday;
use std::alloc::Global;

/// What a plan may spend whose limits are not named.
pub const USUAL_LIMITS: Limits = Limits {
    labels: 65_536,
    nodes: 31,
    rounds: 8,
};

/// What the plan of a made week may spend whose limits are not named.
const MADE_LIMITS: Limits = Limits {
    labels: 16_384,
    nodes: 1,
    rounds: 2,
};

/// What the desk is asked for.
#[derive(Clone, Copy, Debug)]
pub enum Ask {
    /// The plan of a week text, by a search that may spend so much.
    Plan(Limits),
    /// The verdicts on a check text.
    Check,
    /// The publication of a Monday's draft of that revision, 1 to 1,000,000.
    Publish(Monday, u64),
    /// The report of a Monday's week.
    Show(Monday),
    /// The export of a Monday's week.
    Export(Monday),
    /// The plan of a week that is made from a seed, 0 to 999,999,999, by a search that may spend so much.
    Make(u64, Limits),
    /// A server on that port of the loopback, 1 to 65,535, for so many connections, 1 to 10,000.
    Serve(u32, u32),
}

impl Values {
    /// Whether a budget of a search is given.
    fn has_budget(&self) -> bool
        ensures { result ≡ has_budget self.now }
    {
        self.labels.is_some() || self.nodes.is_some() || self.rounds.is_some()
    }

    /// Whether a Monday or a revision is given.
    fn has_draft(&self) -> bool
        ensures { result ≡ has_draft self.now }
    {
        self.monday.is_some() || self.rev.is_some()
    }

    /// Whether a port or a number of connections is given.
    fn has_server(&self) -> bool
        ensures { result ≡ has_server self.now }
    {
        self.port.is_some() || self.count.is_some()
    }

    /// What a search may spend, where budgets that are not given have these sizes.
    fn limits_or(&self, usual: Limits) -> Limits
        requires usual { IsLimits usual }
        requires in_range { AreInRange self.now }
        ensures limits { result ≡ limits_or usual self.now }
        ensures in_range { IsLimits result }
    {
        Limits {
            labels: self.labels.unwrap_or(usual.labels),
            nodes: self.nodes.unwrap_or(usual.nodes),
            rounds: self.rounds.unwrap_or(usual.rounds),
        }
    }
}

/// A plan with its options.
fn plan_in(values: &Values) -> Option<Ask>
    requires { AreInRange values.now }
    ensures ask { result ≡ plan_of values.now }
    ensures asked { IfSome result IsAsked }
{
    if values.seed.is_some() || values.has_draft() || values.has_server() {
        return None;
    }
    Some(Ask::Plan(values.limits_or(USUAL_LIMITS)))
}

/// A check, which has no options.
fn check_in(values: &Values) -> Option<Ask>
    ensures ask { result ≡ check_of values.now }
    ensures asked { IfSome result IsAsked }
{
    if values.has_budget() || values.seed.is_some() || values.has_draft() || values.has_server() {
        return None;
    }
    Some(Ask::Check)
}

/// A publication with its options.
fn publish_in(values: &Values) -> Option<Ask>
    requires { AreInRange values.now }
    ensures ask { result ≡ publish_of values.now }
    ensures asked { IfSome result IsAsked }
{
    if values.has_budget() || values.seed.is_some() || values.has_server() {
        return None;
    }
    let monday = values.monday?;
    let revision = values.rev?;
    Some(Ask::Publish(monday, revision as u64))
}

/// The Monday, where nothing else is given.
fn only_monday(values: &Values) -> Option<Monday>
    ensures { result ≡ only_monday values.now }
{
    if values.has_budget() || values.seed.is_some() || values.rev.is_some() || values.has_server() {
        return None;
    }
    values.monday
}

/// A report with its options.
fn show_in(values: &Values) -> Option<Ask>
    ensures ask { result ≡ show_of values.now }
    ensures asked { IfSome result IsAsked }
{
    let monday = only_monday(values)?;
    Some(Ask::Show(monday))
}

/// An export with its options.
fn export_in(values: &Values) -> Option<Ask>
    ensures ask { result ≡ export_of values.now }
    ensures asked { IfSome result IsAsked }
{
    let monday = only_monday(values)?;
    Some(Ask::Export(monday))
}

/// A made week with its options.
fn make_in(values: &Values) -> Option<Ask>
    requires { AreInRange values.now }
    ensures ask { result ≡ make_of values.now }
    ensures asked { IfSome result IsAsked }
{
    if values.has_draft() || values.has_server() {
        return None;
    }
    let seed = values.seed?;
    Some(Ask::Make(seed as u64, values.limits_or(MADE_LIMITS)))
}

/// A server with its options.
fn serve_in(values: &Values) -> Option<Ask>
    requires { AreInRange values.now }
    ensures ask { result ≡ serve_of values.now }
    ensures asked { IfSome result IsAsked }
{
    if values.has_budget() || values.seed.is_some() || values.has_draft() {
        return None;
    }
    let port = values.port?;
    let count = values.count?;
    Some(Ask::Serve(port, count))
}

/// What an action asks for, with the values of its options.
fn ask_in(action: &[u8], values: &Values) -> Option<Ask>
    requires { AreInRange values.now }
    ensures ask { result ≡ ask_of action.now values.now }
    ensures asked { IfSome result IsAsked }
{
    if action == b"plan".as_slice() {
        return plan_in(values);
    }
    if action == b"check".as_slice() {
        return check_in(values);
    }
    if action == b"publish".as_slice() {
        return publish_in(values);
    }
    if action == b"show".as_slice() {
        return show_in(values);
    }
    if action == b"export".as_slice() {
        return export_in(values);
    }
    if action == b"make".as_slice() {
        return make_in(values);
    }
    if action == b"serve".as_slice() {
        return serve_in(values);
    }
    None
}

/// What is asked for by what `clap` found.
fn asked_in(matches: &ArgMatches<'_>) -> Option<Ask>
    ensures ask { result ≡ asked_in (rows_of (found_of matches.now)) }
    ensures asked { IfSome result IsAsked }
{
    let action = text_at(matches, "action")?;
    let values = values_in(matches)?;
    ask_in(action.as_bytes(), &values)
}

/// Whether a word is two dashes alone, which `clap` would read as the end of the options.
fn has_dashes(words: &[String]) -> bool
    ensures { result ≡ has_dashes (map string_bytes words.now) }
{
    for word in words {
        if word.as_bytes() == b"--".as_slice() {
            return true;
        }
    }
    false
}

/// What words ask for by which `clap` is asked.
fn command_asked(alloc: Global, words: &[String]) -> Result<Ask, WordsError>
    ensures ask { MatchResult result
        (λ ask. command_asked (map string_bytes words.now) ≡ Some ask)
        (λ error. error ≡ IsUsage → command_asked (map string_bytes words.now) ≡ None) }
    ensures asked { IfOk result IsAsked }
{
    match matches_in(alloc, words) {
        Ok(matches) => match asked_in(&matches) {
            Some(ask) => Ok(ask),
            None => Err(WordsError::Usage),
        },
        Err(error) => Err(error),
    }
}

/// What the words ask for: an action, and its options in any order, each at most once, as `--name value` or `--name=value`.
pub fn read_words(alloc: Global, words: &Vec<String>) -> Result<Ask, WordsError>
    ensures ask { MatchResult result
        (λ ask. asked_by (map string_bytes words.now.items) ≡ Some ask)
        (λ error. error ≡ IsUsage → asked_by (map string_bytes words.now.items) ≡ None) }
    ensures asked { IfOk result IsAsked }
{
    if has_dashes(words.as_slice()) {
        return Err(WordsError::Usage);
    }
    command_asked(alloc, words.as_slice())
}

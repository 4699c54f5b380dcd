// The publication of a draft.
ghost use Rattle.std.specs.Prelude.{◌≡◌, ◌≢◌, ℕ, ◌≤◌, ◌+◌, ◌++◌, ◌∷◌, [], vec_len, vec_capacity, map, codes, IsTrue, ◌↔◌, IfOk, IfSome, option_map};
ghost use Rattle.std.specs.Fmt.{decimal};
ghost use Rattle.minute_line.specs.Histories.{fields_of};
ghost use Rattle.minute_line.specs.DateWriting.{IsDayText};
ghost use Rattle.desk_keeper.specs.Tables.{kept_fields, driver_fields};
ghost use Rattle.desk_keeper.specs.Records.{draft_fields};
ghost use Rattle.desk_keeper.specs.Entries.{draft_in, issue_in};
ghost use Rattle.desk_keeper.specs.Changes.{IsStanding};
ghost use Rattle.desk_core.specs.Causes.{RefusedFor, IsMoved, IsIssueRefusal};
ghost use Rattle.desk_core.specs.Issuing.{draft_said, ExpectsAsSeen, IsPublication};
ghost use Rattle.desk_core.specs.Replies.{Comes, IsOutcome, failed_by};
ghost use Rattle.desk_core.specs.Machine.{Issues};

use crate::asking::{draft_of, history_of, issue_of};
use crate::refusals::{Refusal, Stop};
use desk_keeper::{Draft, DraftDriver, Keeper, Kept};
use itoa::Buffer;
use minute_line::{Bytes, History, Many, Memory, Monday, history_text, monday_text, text_says_all};
use std::alloc::Global;

/// The text of a publication up to its receipt, with room for the rest.
fn publication_begun(alloc: Global, monday: Monday) -> Result<Vec<u8>, Memory>
    ensures text { IfOk result (λ text. (day : _) × IsDayText monday.day day × (text.items ≡ codes "published " ++ (day ++ codes " receipt "))) }
    ensures room { IfOk result (λ text. vec_len text + 41 ≤ vec_capacity text) }
{
    let mut text = Vec::with_capacity(alloc, 80)?;
    text.extend_from_slice(b"published ".as_slice())?;
    text.extend_from_slice(&monday_text(monday))?;
    text.extend_from_slice(b" receipt ".as_slice())?;
    Ok(text)
}

/// The text of a publication with its receipt. It takes no memory.
fn publication_ended(begun: Vec<u8>, receipt: u64) -> Bytes
    requires { vec_len begun + 41 ≤ vec_capacity begun }
    ensures { result ≡ begun.items ++ (decimal receipt ++ 10 ∷ []) }
{
    let mut text = begun;
    let mut digits = Buffer::new();
    let Ok(()) = text.extend_from_slice(digits.format(receipt).as_bytes()) else {
        unreachable!()
    };
    let Ok(()) = text.push(b'\n') else {
        unreachable!()
    };
    Many::from_vec(text)
}

/// Whether two histories are the same.
fn is_same_history(alloc: Global, one: &History, other: &History) -> Result<bool, Memory>
    ensures { IfOk result (λ same. IsTrue same ↔ (fields_of one.now ≡ fields_of other.now)) }
{
    let text = history_text(alloc, one)?;
    let other_text = history_text(alloc, other)?;
    if text.as_slice() != other_text.as_slice() {
        return Ok(false);
    }
    text_says_all(one, other);
    Ok(true)
}

/// Whether the same is kept.
fn is_same(alloc: Global, one: &Option<Kept>, other: &Option<Kept>) -> Result<bool, Memory>
    ensures { IfOk result (λ same. IsTrue same ↔ (option_map kept_fields one.now ≡ option_map kept_fields other.now)) }
{
    match (one, other) {
        (Some(one), Some(other)) => {
            if one.monday.day != other.monday.day {
                return Ok(false);
            }
            is_same_history(alloc, &one.past, &other.past)
        }
        (None, None) => Ok(true),
        (Some(_), None) | (None, Some(_)) => Ok(false),
    }
}

/// The draft of that revision of a week, which may be published if what is kept of its drivers is what was seen.
fn draft_at<B: Keeper>(
    alloc: Global,
    keeper: &mut B,
    monday: Monday,
    revision: u64,
) -> Result<Draft, Stop>
    ensures answer { Comes draft_fields result (B.tables keeper.old)
        (λ t said. said ≡ draft_said monday revision (issue_in t monday.day) (draft_in t monday.day)) }
    ensures refused { RefusedFor (IsIssueRefusal monday revision) result }
    ensures standing { IfOk result (λ draft. IfSome (B.tables keeper.new) (IsStanding (draft_fields draft))) }
    ensures tables { B.tables keeper.new ≡ B.tables keeper.old }
    ensures counts { B.faults keeper.new ≡ failed_by (B.faults keeper.old) result }
    ensures counted { B.faults keeper.old ≤ B.faults keeper.new }
{
    if let Some(issue) = issue_of(alloc, keeper, monday)? {
        return Err(Stop::Refused(Refusal::Published(monday, issue.receipt)));
    }
    let Some(draft) = draft_of(alloc, keeper, monday)? else {
        return Err(Stop::Refused(Refusal::NoDraft(monday)));
    };
    if draft.revision != revision {
        return Err(Stop::Refused(Refusal::Stale(revision, draft.revision)));
    }
    Ok(draft)
}

/// Refuses the first driver of whom something else is kept than was seen.
fn expect_as_seen<B: Keeper>(
    alloc: Global,
    keeper: &mut B,
    drivers: &[DraftDriver],
) -> Result<(), Stop>
    ensures answer { Comes (λ _. tt) result (B.tables keeper.old) (λ t said. ExpectsAsSeen t (map driver_fields drivers.now) said) }
    ensures refused { RefusedFor IsMoved result }
    ensures tables { B.tables keeper.new ≡ B.tables keeper.old }
    ensures counts { B.faults keeper.new ≡ failed_by (B.faults keeper.old) result }
    ensures counted { B.faults keeper.old ≤ B.faults keeper.new }
{
    for driver in drivers {
        let kept = history_of(alloc, keeper, &driver.name)?;
        if !is_same(alloc, &kept, &driver.seen)? {
            let name = Many::from_slice(alloc, driver.name.as_slice())?;
            return Err(Stop::Refused(Refusal::Moved(name)));
        }
    }
    Ok(())
}

/// Publishes the draft of that revision of a week. Room for the text is made before, so that no want of memory follows the
/// publication.
pub(crate) fn publish<B: Keeper>(
    alloc: Global,
    keeper: &mut B,
    monday: Monday,
    revision: u64,
) -> Result<Bytes, Stop>
    ensures step { IsOutcome (Issues monday revision) (B.tables keeper.old) result (B.tables keeper.new) }
    ensures told { IfOk result (λ told. (receipt : ℕ) × IsPublication monday receipt told) }
    ensures refused { RefusedFor (IsIssueRefusal monday revision) result }
    ensures counts { B.faults keeper.new ≡ failed_by (B.faults keeper.old) result }
    ensures counted { B.faults keeper.old ≤ B.faults keeper.new }
{
    let draft = draft_at(alloc, keeper, monday, revision)?;
    expect_as_seen(alloc, keeper, draft.drivers.as_slice())?;
    let text = publication_begun(alloc, monday)?;
    let receipt = keeper.publish(alloc, &draft)?;
    Ok(publication_ended(text, receipt))
}

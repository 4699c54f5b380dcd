// Whether stints and numbers are those of a line or of a history.
ghost use Rattle.std.specs.Prelude.{◌≡◌, ◌&&◌, not, true, false, nat_le};
ghost use Rattle.minute_line.specs.declared.lines.TheConstants.{PAST_LIMIT};
ghost use Rattle.minute_line.specs.Marks.{is_weekly};
ghost use Rattle.minute_line.specs.Minutes.{total_of};
ghost use Rattle.minute_line.specs.Stints.{may_follow, each_follows, only_declares, is_line, is_past, all_up_to};

use crate::lines::PAST_LIMIT;
use crate::marks::Stint;

/// Whether the stint may come after an Off stint, or after another one.
fn follows(after_off: bool, stint: &Stint) -> bool
    ensures { result ≡ may_follow after_off stint.now }
{
    let own_kind = stint.mark.is_off() || !stint.kind.is_rest();
    stint.minutes >= 1 && (own_kind && !(after_off && stint.mark.is_off()))
}

/// Whether each stint may follow the one before it.
fn follow_each_other(after_off: bool, stints: &[Stint]) -> bool
    ensures { result ≡ each_follows after_off stints.now }
{
    let mut off = after_off;
    for stint in stints {
        if !follows(off, stint) {
            return false;
        }
        off = stint.mark.is_off();
    }
    true
}

/// Whether the stint is Off with no minute, as the first one of a week may be.
fn declares_only(stint: &Stint) -> bool
    ensures { result ≡ only_declares stint.now }
{
    stint.mark.is_off() && stint.minutes == 0
}

/// Whether the stints are those of a `Line`.
pub fn is_line_of(stints: &[Stint]) -> bool
    ensures { result ≡ is_line stints.now }
{
    match stints {
        [] => true,
        [first, rest @ ..] => {
            (declares_only(first) || follows(false, first))
                && follow_each_other(first.mark.is_off(), rest)
        }
    }
}

/// Whether the stint may stand in a history, after an Off stint or after another one.
fn lies_in_past(after_off: bool, stint: &Stint) -> bool
    ensures { result ≡ (may_follow after_off stint.now && not (is_weekly stint.now.kind)) }
{
    follows(after_off, stint) && !stint.kind.is_weekly()
}

/// Whether the stints are those of a history.
pub(crate) fn is_past_of(stints: &[Stint]) -> bool
    ensures { result ≡ is_past false stints.now }
{
    let mut after_off = false;
    for stint in stints {
        if !lies_in_past(after_off, stint) {
            return false;
        }
        after_off = stint.mark.is_off();
    }
    !after_off
}

/// Whether the stints have at most 20,160 minutes.
pub(crate) fn are_few(stints: &[Stint]) -> bool
    ensures { result ≡ nat_le (total_of stints.now) PAST_LIMIT }
{
    let mut left = PAST_LIMIT;
    for stint in stints {
        if stint.minutes > left {
            return false;
        }
        left -= stint.minutes;
    }
    true
}

/// Whether each number is at most so much.
pub(crate) fn are_up_to(most: u32, numbers: &[u32]) -> bool
    ensures { result ≡ all_up_to most numbers.now }
{
    for number in numbers {
        if *number > most {
            return false;
        }
    }
    true
}

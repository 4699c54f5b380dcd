// What a keeper answers, for a command that stops where the keeper fails.
ghost use Rattle.std.specs.Prelude.{◌≡◌, ◌≤◌, option_map};
ghost use Rattle.desk_keeper.specs.Tables.{kept_fields};
ghost use Rattle.desk_keeper.specs.Records.{draft_fields, issue_fields};
ghost use Rattle.desk_keeper.specs.Entries.{history_in, draft_in, issue_in};
ghost use Rattle.desk_core.specs.Replies.{Hears, failed_by};

use crate::refusals::Stop;
use desk_keeper::{Draft, Issue, Keeper, Kept};
use minute_line::{Monday, Name};
use std::alloc::Global;

/// What is kept of a driver.
pub(crate) fn history_of<B: Keeper>(
    alloc: Global,
    keeper: &mut B,
    driver: &Name,
) -> Result<Option<Kept>, Stop>
    ensures answer { Hears (option_map kept_fields) result (B.tables keeper.old) (λ t. history_in t driver.now) }
    ensures tables { B.tables keeper.new ≡ B.tables keeper.old }
    ensures counts { B.faults keeper.new ≡ failed_by (B.faults keeper.old) result }
    ensures counted { B.faults keeper.old ≤ B.faults keeper.new }
{
    Ok(keeper.history(alloc, driver)?)
}

/// The draft of a week.
pub(crate) fn draft_of<B: Keeper>(
    alloc: Global,
    keeper: &mut B,
    monday: Monday,
) -> Result<Option<Draft>, Stop>
    ensures answer { Hears (option_map draft_fields) result (B.tables keeper.old) (λ t. draft_in t monday.day) }
    ensures tables { B.tables keeper.new ≡ B.tables keeper.old }
    ensures counts { B.faults keeper.new ≡ failed_by (B.faults keeper.old) result }
    ensures counted { B.faults keeper.old ≤ B.faults keeper.new }
{
    Ok(keeper.draft(alloc, monday)?)
}

/// The issue of a week.
pub(crate) fn issue_of<B: Keeper>(
    alloc: Global,
    keeper: &mut B,
    monday: Monday,
) -> Result<Option<Issue>, Stop>
    ensures answer { Hears (option_map issue_fields) result (B.tables keeper.old) (λ t. issue_in t monday.day) }
    ensures tables { B.tables keeper.new ≡ B.tables keeper.old }
    ensures counts { B.faults keeper.new ≡ failed_by (B.faults keeper.old) result }
    ensures counted { B.faults keeper.old ≤ B.faults keeper.new }
{
    Ok(keeper.published(alloc, monday)?)
}

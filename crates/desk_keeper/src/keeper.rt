// Who keeps the office's tables. Contracts see the tables, where they are told, and a count of faults.
ghost use Rattle.std.specs.Prelude.{◌≡◌, ℕ, ◌≤◌, Option, option_map, IfSome};
ghost use Rattle.desk_keeper.specs.Tables.{Tables, kept_fields};
ghost use Rattle.desk_keeper.specs.Records.{draft_fields, issue_fields};
ghost use Rattle.desk_keeper.specs.Entries.{history_in, draft_in, issue_in, next_receipt};
ghost use Rattle.desk_keeper.specs.Changes.{with_draft, with_issue, IsNext, IsStanding};
ghost use Rattle.desk_keeper.specs.Calls.{Answers, Changes, failed_calls};
ghost use Rattle.desk_keeper.specs.declared.keeper.KeeperError.TheVariants.{Memory as WantOfMemory};

use crate::records::{Draft, Issue, Kept};
use minute_line::{Memory, Monday, Name};
use std::alloc::Global;

/// Why a call of a keeper failed. It changed nothing.
#[derive(Clone, Copy, Debug, PartialEq, Eq)]
pub enum KeeperError {
    /// A fault of the keeper, which counts it.
    Fault,
    /// Want of memory.
    Memory,
}

impl From<Memory> for KeeperError {
    ghost from_gives = { λ _ e. e ≡ WantOfMemory };

    fn from(_error: Memory) -> KeeperError {
        KeeperError::Memory
    }
}

/// Keeps drivers' histories, drafts and issues. Each call is done as a whole or not at all.
pub trait Keeper {
    /// Its tables, or none where it tells nothing of them.
    ghost tables: { Self → Option Tables };

    /// How many of its calls failed by a fault. Such a call counts one, up to the last value, and no other counts.
    ghost faults: { Self → ℕ };

    /// What is kept of a driver.
    fn history(&mut self, alloc: Global, driver: &Name) -> Result<Option<Kept>, KeeperError>
        ensures answer { Answers (option_map kept_fields) (tables self.old) (λ t. history_in t driver.now) result }
        ensures tables { tables self.new ≡ tables self.old }
        ensures counts { faults self.new ≡ failed_calls (faults self.old) result }
        ensures counted { faults self.old ≤ faults self.new };

    /// The draft of a week.
    fn draft(&mut self, alloc: Global, monday: Monday) -> Result<Option<Draft>, KeeperError>
        ensures answer { Answers (option_map draft_fields) (tables self.old) (λ t. draft_in t monday.day) result }
        ensures tables { tables self.new ≡ tables self.old }
        ensures counts { faults self.new ≡ failed_calls (faults self.old) result }
        ensures counted { faults self.old ≤ faults self.new };

    /// The issue of a week.
    fn published(&mut self, alloc: Global, monday: Monday) -> Result<Option<Issue>, KeeperError>
        ensures answer { Answers (option_map issue_fields) (tables self.old) (λ t. issue_in t monday.day) result }
        ensures tables { tables self.new ≡ tables self.old }
        ensures counts { faults self.new ≡ failed_calls (faults self.old) result }
        ensures counted { faults self.old ≤ faults self.new };

    /// Keeps a draft, in the place of the week's last one.
    fn put_draft(&mut self, alloc: Global, draft: &Draft) -> Result<(), KeeperError>
        requires next { IfSome (tables self.old) (IsNext (draft_fields draft.now)) }
        ensures tables { Changes (tables self.old) (with_draft (draft_fields draft.now)) result (tables self.new) }
        ensures counts { faults self.new ≡ failed_calls (faults self.old) result }
        ensures counted { faults self.old ≤ faults self.new };

    /// Publishes the draft of a week, and gives the receipt. The draft is gone, and what is kept of its drivers is their
    /// history after that week.
    fn publish(&mut self, alloc: Global, draft: &Draft) -> Result<u64, KeeperError>
        requires standing { IfSome (tables self.old) (IsStanding (draft_fields draft.now)) }
        ensures receipt { Answers (λ receipt. receipt) (tables self.old) next_receipt result }
        ensures tables { Changes (tables self.old) (with_issue (draft_fields draft.now)) result (tables self.new) }
        ensures counts { faults self.new ≡ failed_calls (faults self.old) result }
        ensures counted { faults self.old ≤ faults self.new };
}

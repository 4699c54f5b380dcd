// What stands in the three tables.
ghost use Rattle.std.specs.Prelude.{◌≡◌, ◌≤◌, map, pos, ◌+ℤ◌, ◌≤ℤ◌};
ghost use Rattle.std.proofs.Props.{props};
ghost use Rattle.desk_keeper.specs.Tables.{driver_fields, AreNamedOnce};
ghost use Rattle.desk_keeper.specs.declared.records.TheConstants.{DRAFT_LIMIT};

use minute_line::{Bytes, History, Many, Monday, Name};

/// A driver's history up to that Monday 00:00.
#[derive(Drop)]
pub struct Kept {
    pub monday: Monday,
    pub past: History,
}

/// A driver of a draft.
#[derive(Drop)]
pub struct DraftDriver {
    pub name: Name,
    /// What was kept of the driver as the draft was made.
    pub seen: Option<Kept>,
    /// The history after the planned week, up to the following Monday.
    pub next: History,
}

/// The most drafts of a week.
pub const DRAFT_LIMIT: u64 = 1_000_000;

/// A plan of a week that may still be changed. No two of its drivers have one name.
#[derive(Drop)]
pub struct Draft {
    /// The week's Monday, at most 2099-12-28, so that a Monday follows.
    pub monday: Monday,
    /// The drafts of the week up to this one, from 1.
    pub revision: u64,
    pub drivers: Many<DraftDriver>,
    /// The texts of the plan: the office's, and the one for other programs.
    pub report: Bytes,
    pub export: Bytes,
    pub ghost monday_in: { monday.day ≤ℤ pos 47478 },
    pub ghost revision_in: { (1 ≤ revision) × (revision ≤ DRAFT_LIMIT) },
    pub ghost once: { AreNamedOnce (map driver_fields drivers) } by { Prim.hlevel props },
}

/// A published plan of a week, which stands.
#[derive(Drop)]
pub struct Issue {
    /// Its number among all issues, from 1.
    pub receipt: u64,
    pub monday: Monday,
    /// The revision of the draft that was published.
    pub revision: u64,
    pub report: Bytes,
    pub export: Bytes,
    pub ghost revision_in: { (1 ≤ revision) × (revision ≤ DRAFT_LIMIT) },
}

/// The Monday after that week.
pub fn next_monday(monday: Monday) -> Monday
    requires { monday.day ≤ℤ pos 47478 }
    ensures { result.day ≡ monday.day +ℤ pos 7 }
{
    Monday {
        day: monday.day + 7,
    }
}

// A keeper in memory, which tells its tables. Some of its calls fail, as they are told to.
ghost use Rattle.std.specs.Prelude.{◌≡◌, ◌≤◌, ◌≤ℤ◌, pos, [], IfSome, IfOk, OnOk, OnErr, Some, option_map, option_copied, find, map, position};
ghost use Rattle.std.specs.Ordering.{int_eq};
ghost use Rattle.std.specs.Str.{bytes_eq};
ghost use Rattle.desk_keeper.specs.Tables.{kept_fields, driver_fields};
ghost use Rattle.desk_keeper.specs.Records.{draft_fields, issue_fields};
ghost use Rattle.desk_keeper.specs.Memory.{tables_of, fails_next, FaultsWhere, CountsCall, row_fields};
ghost use Rattle.desk_keeper.specs.Entries.{history_in, draft_in, issue_in, next_receipt};
ghost use Rattle.desk_keeper.specs.Changes.{put, with_row, moved_on, row_after, without_draft, issue_of as issued, with_draft, with_issue, IsNext, IsStanding};
ghost use Rattle.desk_keeper.specs.Calls.{Answers, Changes, failed_calls};

use crate::copies::{copy_draft, copy_issue, copy_kept};
use crate::keeper::{Keeper, KeeperError};
use crate::records::{Draft, DraftDriver, Issue, Kept, next_monday};
use minute_line::{Many, Memory, Monday, Name, copy_history};
use std::alloc::Global;
use std::mem;

/// What is kept of a driver.
#[derive(Drop)]
pub struct KeptRow {
    pub driver: Name,
    pub kept: Kept,
}

/// A keeper in memory. Its calls are numbered from 1, and a counter at its last value stands.
#[derive(Drop)]
pub struct MemoryKeeper {
    /// The first row of a driver counts.
    pub histories: Many<KeptRow>,
    /// The first draft of a week counts.
    pub drafts: Many<Draft>,
    /// In the order of their receipts.
    pub issues: Many<Issue>,
    /// How many calls were made.
    pub calls: u64,
    /// The numbers of the calls that are to fail.
    pub fails: Many<u64>,
    /// How many calls failed.
    pub faults: u64,
}

/// The first row of a driver.
fn row_of<'a>(rows: &'a [KeptRow], driver: &Name) -> Option<&'a KeptRow>
    ensures { option_copied result ≡ find (λ row. bytes_eq row.driver driver.now) rows.now }
{
    rows.iter()
        .find(|row| row.driver.as_slice() == driver.as_slice())
}

/// The first draft of a week.
fn draft_of(drafts: &[Draft], monday: Monday) -> Option<&Draft>
    ensures { option_copied result ≡ find (λ draft. int_eq draft.monday.day monday.day) drafts.now }
{
    drafts.iter().find(|draft| draft.monday.day == monday.day)
}

/// The first issue of a week.
fn issue_of(issues: &[Issue], monday: Monday) -> Option<&Issue>
    ensures { option_copied result ≡ find (λ issue. int_eq issue.monday.day monday.day) issues.now }
{
    issues.iter().find(|issue| issue.monday.day == monday.day)
}

/// What is kept of a driver in the rows.
fn kept_in(alloc: Global, rows: &[KeptRow], driver: &Name) -> Result<Option<Kept>, Memory>
    ensures { IfOk result (λ found. option_map kept_fields found
        ≡ option_map (λ row. row.kept) (find (λ row. bytes_eq row.driver driver.now) (map row_fields rows.now))) }
{
    match row_of(rows, driver) {
        Some(row) => Ok(Some(copy_kept(alloc, &row.kept)?)),
        None => Ok(None),
    }
}

/// The draft of a week among the drafts.
fn draft_among(alloc: Global, drafts: &[Draft], monday: Monday) -> Result<Option<Draft>, Memory>
    ensures { IfOk result (λ found. option_map draft_fields found
        ≡ find (λ draft. int_eq draft.monday monday.day) (map draft_fields drafts.now)) }
{
    match draft_of(drafts, monday) {
        Some(draft) => Ok(Some(copy_draft(alloc, draft)?)),
        None => Ok(None),
    }
}

/// The issue of a week among the issues.
fn issue_among(alloc: Global, issues: &[Issue], monday: Monday) -> Result<Option<Issue>, Memory>
    ensures { IfOk result (λ found. option_map issue_fields found
        ≡ find (λ issue. int_eq issue.monday monday.day) (map issue_fields issues.now)) }
{
    match issue_of(issues, monday) {
        Some(issue) => Ok(Some(copy_issue(alloc, issue)?)),
        None => Ok(None),
    }
}

/// The place of the first draft of a week.
fn draft_place(drafts: &[Draft], monday: Monday) -> Option<usize>
    ensures { result ≡ position (λ draft. int_eq draft.monday.day monday.day) drafts.now }
{
    drafts
        .iter()
        .position(|draft| draft.monday.day == monday.day)
}

/// The place of a driver's first row.
fn row_place(rows: &[KeptRow], driver: &Name) -> Option<usize>
    ensures { result ≡ position (λ row. bytes_eq row.driver driver.now) rows.now }
{
    rows.iter()
        .position(|row| row.driver.as_slice() == driver.as_slice())
}

/// Puts a draft in the place of the first of its week, or at the end where there is none. Where memory wants, the drafts stay.
fn put_among(drafts: &mut Many<Draft>, draft: Draft) -> Result<(), Memory>
    ensures ok { OnOk result (map draft_fields drafts.new
        ≡ put (λ other. int_eq other.monday draft.monday.day) (draft_fields draft) (map draft_fields drafts.old)) }
    ensures err { OnErr result (drafts.new ≡ drafts.old) }
{
    match draft_place(drafts.as_slice(), draft.monday) {
        Some(place) => {
            drafts.set(place, draft);
            Ok(())
        }
        None => drafts.push(draft),
    }
}

fn copy_rows(alloc: Global, rows: &[KeptRow]) -> Result<Many<KeptRow>, Memory>
    ensures { IfOk result (λ copies. map row_fields copies ≡ map row_fields rows.now) }
{
    let mut copies = Many::new(alloc);
    for row in rows {
        copies.push(KeptRow {
            driver: Many::from_slice(alloc, row.driver.as_slice())?,
            kept: copy_kept(alloc, &row.kept)?,
        })?;
    }
    Ok(copies)
}

/// Puts a row in the place of its driver's first, or at the end where there is none.
fn put_row(rows: &mut Many<KeptRow>, row: KeptRow) -> Result<(), Memory>
    ensures { OnOk result (map row_fields rows.new ≡ with_row (row_fields row) (map row_fields rows.old)) }
{
    match row_place(rows.as_slice(), &row.driver) {
        Some(place) => {
            rows.set(place, row);
            Ok(())
        }
        None => rows.push(row),
    }
}

/// What is kept of a driver once the week of that Monday is published.
fn row_for(alloc: Global, monday: Monday, driver: &DraftDriver) -> Result<KeptRow, Memory>
    requires { monday.day ≤ℤ pos 47478 }
    ensures { IfOk result (λ row. row_fields row ≡ row_after monday.day (driver_fields driver.now)) }
{
    Ok(KeptRow {
        driver: Many::from_slice(alloc, driver.name.as_slice())?,
        kept: Kept {
            monday: next_monday(monday),
            past: copy_history(alloc, &driver.next)?,
        },
    })
}

/// The rows once the week of that Monday is published.
fn moved_rows(
    alloc: Global,
    rows: &[KeptRow],
    monday: Monday,
    drivers: &[DraftDriver],
) -> Result<Many<KeptRow>, Memory>
    requires { monday.day ≤ℤ pos 47478 }
    ensures { IfOk result (λ moved. map row_fields moved
        ≡ moved_on monday.day (map driver_fields drivers.now) (map row_fields rows.now)) }
{
    let mut moved = copy_rows(alloc, rows)?;
    for driver in drivers {
        put_row(&mut moved, row_for(alloc, monday, driver)?)?;
    }
    Ok(moved)
}

/// A draft as the issue of that receipt.
fn issue_from(alloc: Global, receipt: u64, draft: &Draft) -> Result<Issue, Memory>
    ensures { IfOk result (λ issue. issue_fields issue ≡ issued receipt (draft_fields draft.now)) }
{
    Ok(Issue {
        receipt,
        monday: draft.monday,
        revision: draft.revision,
        report: Many::from_slice(alloc, draft.report.as_slice())?,
        export: Many::from_slice(alloc, draft.export.as_slice())?,
    })
}

/// The drafts of the other weeks.
fn others(drafts: Many<Draft>, monday: Monday) -> Many<Draft>
    ensures { map draft_fields result ≡ without_draft monday.day (map draft_fields drafts) }
{
    let mut drafts = drafts.into_vec();
    drafts.retain(|draft| draft.monday.day != monday.day);
    Many::from_vec(drafts)
}

impl MemoryKeeper {
    /// A keeper that keeps nothing yet, whose calls of these numbers are to fail.
    pub fn new(alloc: Global, fails: Many<u64>) -> MemoryKeeper
        ensures tables { tables_of result ≡ record { histories = []; drafts = []; issues = [] } }
        ensures fails { result.fails ≡ fails }
        ensures counts { (result.calls ≡ 0) × (result.faults ≡ 0) }
    {
        MemoryKeeper {
            histories: Many::new(alloc),
            drafts: Many::new(alloc),
            issues: Many::new(alloc),
            calls: 0,
            fails,
            faults: 0,
        }
    }

    /// Counts a call, and fails it where it is to fail.
    fn begin(&mut self) -> Result<(), KeeperError>
        ensures fault { FaultsWhere (fails_next self.old) result }
        ensures counts { self.new.faults ≡ failed_calls self.old.faults result }
        ensures counted { self.old.faults ≤ self.new.faults }
        ensures call { CountsCall self.old self.new }
        ensures tables { (self.new.histories ≡ self.old.histories) × (self.new.drafts ≡ self.old.drafts)
            × (self.new.issues ≡ self.old.issues) }
    {
        self.calls = self.calls.saturating_add(1);
        if self.fails.as_slice().contains(&self.calls) {
            self.faults = self.faults.saturating_add(1);
            return Err(KeeperError::Fault);
        }
        Ok(())
    }

    /// The receipt of the next issue. No memory holds so many issues that none is left.
    fn next_receipt(&self) -> Result<u64, Memory>
        ensures { IfOk result (λ receipt. receipt ≡ next_receipt (tables_of self.now)) }
    {
        match (self.issues.len() as u64).checked_add(1) {
            Some(receipt) => Ok(receipt),
            None => Err(Memory),
        }
    }
}

impl Keeper for MemoryKeeper {
    ghost use Rattle.std.specs.Prelude.{Some};
    ghost use Rattle.desk_keeper.specs.Memory.{tables_of};

    ghost tables = { λ k. Some (tables_of k) };

    ghost faults = { λ k. k.faults };

    fn history(&mut self, alloc: Global, driver: &Name) -> Result<Option<Kept>, KeeperError>
        ensures answer { Answers (option_map kept_fields) (Some (tables_of self.old)) (λ t. history_in t driver.now) result }
        ensures tables { Some (tables_of self.new) ≡ Some (tables_of self.old) }
        ensures counts { self.new.faults ≡ failed_calls self.old.faults result }
        ensures counted { self.old.faults ≤ self.new.faults }
        ensures fault { FaultsWhere (fails_next self.old) result }
        ensures call { CountsCall self.old self.new }
    {
        self.begin()?;
        Ok(kept_in(alloc, self.histories.as_slice(), driver)?)
    }

    fn draft(&mut self, alloc: Global, monday: Monday) -> Result<Option<Draft>, KeeperError>
        ensures answer { Answers (option_map draft_fields) (Some (tables_of self.old)) (λ t. draft_in t monday.day) result }
        ensures tables { Some (tables_of self.new) ≡ Some (tables_of self.old) }
        ensures counts { self.new.faults ≡ failed_calls self.old.faults result }
        ensures counted { self.old.faults ≤ self.new.faults }
        ensures fault { FaultsWhere (fails_next self.old) result }
        ensures call { CountsCall self.old self.new }
    {
        self.begin()?;
        Ok(draft_among(alloc, self.drafts.as_slice(), monday)?)
    }

    fn published(&mut self, alloc: Global, monday: Monday) -> Result<Option<Issue>, KeeperError>
        ensures answer { Answers (option_map issue_fields) (Some (tables_of self.old)) (λ t. issue_in t monday.day) result }
        ensures tables { Some (tables_of self.new) ≡ Some (tables_of self.old) }
        ensures counts { self.new.faults ≡ failed_calls self.old.faults result }
        ensures counted { self.old.faults ≤ self.new.faults }
        ensures fault { FaultsWhere (fails_next self.old) result }
        ensures call { CountsCall self.old self.new }
    {
        self.begin()?;
        Ok(issue_among(alloc, self.issues.as_slice(), monday)?)
    }

    fn put_draft(&mut self, alloc: Global, draft: &Draft) -> Result<(), KeeperError>
        requires next { IfSome (Some (tables_of self.old)) (IsNext (draft_fields draft.now)) }
        ensures tables { Changes (Some (tables_of self.old)) (with_draft (draft_fields draft.now)) result (Some (tables_of self.new)) }
        ensures counts { self.new.faults ≡ failed_calls self.old.faults result }
        ensures counted { self.old.faults ≤ self.new.faults }
        ensures fault { FaultsWhere (fails_next self.old) result }
        ensures call { CountsCall self.old self.new }
    {
        self.begin()?;
        Ok(put_among(&mut self.drafts, copy_draft(alloc, draft)?)?)
    }

    fn publish(&mut self, alloc: Global, draft: &Draft) -> Result<u64, KeeperError>
        requires standing { IfSome (Some (tables_of self.old)) (IsStanding (draft_fields draft.now)) }
        ensures receipt { Answers (λ receipt. receipt) (Some (tables_of self.old)) next_receipt result }
        ensures tables { Changes (Some (tables_of self.old)) (with_issue (draft_fields draft.now)) result (Some (tables_of self.new)) }
        ensures counts { self.new.faults ≡ failed_calls self.old.faults result }
        ensures counted { self.old.faults ≤ self.new.faults }
        ensures fault { FaultsWhere (fails_next self.old) result }
        ensures call { CountsCall self.old self.new }
    {
        self.begin()?;
        let rows = self.histories.as_slice();
        let moved = moved_rows(alloc, rows, draft.monday, draft.drivers.as_slice())?;
        let receipt = self.next_receipt()?;
        self.issues.push(issue_from(alloc, receipt, draft)?)?;
        self.histories = moved;
        let drafts = mem::replace(&mut self.drafts, Many::new(alloc));
        self.drafts = others(drafts, draft.monday);
        Ok(receipt)
    }
}

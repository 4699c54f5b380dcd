// The queries of the store. Each is a query and does not ask for the time, so that it changes nothing.
ghost use Rattle.std.specs.Prelude.{◌≡◌, IsTrue, codes};
ghost use Rattle.store_texts.specs.Queries.{only_reads};

/// The name of the table that is named, if there is one.
pub fn table_query() -> &'static str
    ensures text { result.now ≡ codes "SELECT name FROM sqlite_schema WHERE type = 'table' AND name = ?1" }
    ensures reads { IsTrue (only_reads result.now) }
{
    "SELECT name FROM sqlite_schema WHERE type = 'table' AND name = ?1"
}

/// The version of the stored texts.
pub fn version_query() -> &'static str
    ensures text { result.now ≡ codes "SELECT version FROM format" }
    ensures reads { IsTrue (only_reads result.now) }
{
    "SELECT version FROM format"
}

/// The draft of a week: its revision, its report and its export.
pub fn draft_query() -> &'static str
    ensures text { result.now ≡ codes "SELECT revision, report, export FROM drafts WHERE monday = ?1" }
    ensures reads { IsTrue (only_reads result.now) }
{
    "SELECT revision, report, export FROM drafts WHERE monday = ?1"
}

/// The drivers of a week's draft in their order: the name, the Monday and the text of what was kept, and the text to keep.
pub fn drivers_query() -> &'static str
    ensures text { result.now ≡ codes "SELECT driver, seen_monday, seen_past, next_past FROM draft_drivers WHERE monday = ?1 ORDER BY place" }
    ensures reads { IsTrue (only_reads result.now) }
{
    "SELECT driver, seen_monday, seen_past, next_past FROM draft_drivers WHERE monday = ?1 ORDER BY place"
}

/// The greatest receipt, if there is one.
pub fn receipt_query() -> &'static str
    ensures text { result.now ≡ codes "SELECT receipt FROM issues ORDER BY receipt DESC LIMIT 1" }
    ensures reads { IsTrue (only_reads result.now) }
{
    "SELECT receipt FROM issues ORDER BY receipt DESC LIMIT 1"
}

/// Each kept history's row and text.
pub fn pasts_query() -> &'static str
    ensures text { result.now ≡ codes "SELECT rowid, past FROM histories" }
    ensures reads { IsTrue (only_reads result.now) }
{
    "SELECT rowid, past FROM histories"
}

/// The row and the text of each history that a draft saw.
pub fn seen_pasts_query() -> &'static str
    ensures text { result.now ≡ codes "SELECT rowid, seen_past FROM draft_drivers WHERE seen_past IS NOT NULL" }
    ensures reads { IsTrue (only_reads result.now) }
{
    "SELECT rowid, seen_past FROM draft_drivers WHERE seen_past IS NOT NULL"
}

/// The row and the text of each history that a draft is to leave.
pub fn next_pasts_query() -> &'static str
    ensures text { result.now ≡ codes "SELECT rowid, next_past FROM draft_drivers" }
    ensures reads { IsTrue (only_reads result.now) }
{
    "SELECT rowid, next_past FROM draft_drivers"
}

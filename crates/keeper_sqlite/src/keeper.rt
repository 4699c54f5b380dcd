// The keeper over a database. It tells no tables, and counts its faults.
ghost use Rattle.std.specs.Prelude.{◌≡◌, ◌≤◌, false, None};
ghost use Rattle.desk_keeper.specs.Records.{draft_fields};
ghost use Rattle.desk_keeper.specs.Entries.{next_receipt};
ghost use Rattle.desk_keeper.specs.Changes.{with_draft, with_issue};
ghost use Rattle.desk_keeper.specs.Calls.{Answers, Changes, failed_calls};
ghost use Rattle.sqlite.specs.Held.{state};
ghost use Rattle.keeper_sqlite.specs.Causes.{error_of, faults_after};
ghost use Rattle.keeper_sqlite.specs.Commits.{KeepsCommitted};

use crate::causes::Cause;
use crate::drafts::{draft_of, put_draft};
use crate::histories::history_of;
use crate::issues::{issue_of, publish};
use desk_keeper::{Draft, Issue, Keeper, KeeperError, Kept};
use minute_line::{Monday, Name};
use sqlite::{Alter, Connection};
use std::alloc::Global;

/// A keeper over a connection. Between its calls no transaction is open.
#[derive(Drop)]
pub struct SqliteKeeper<S: Alter> {
    connection: Connection<S>,
    faults: u64,
    ghost idle: { connection.in_transaction ≡ false },
}

impl<S: Alter + Drop> SqliteKeeper<S> {
    /// A keeper that has counted no fault.
    pub(crate) fn over(connection: Connection<S>) -> SqliteKeeper<S>
        requires idle { connection.in_transaction ≡ false }
        ensures faults { result.faults ≡ 0 }
    {
        SqliteKeeper {
            connection,
            faults: 0,
        }
    }

    /// Gives the connection back, as for closing a file.
    pub fn into_connection(self) -> Connection<S>
        ensures idle { result.in_transaction ≡ false }
    {
        let SqliteKeeper {
            connection,
            faults: _,
        } = self;
        connection
    }

    /// How many of its calls failed by a fault, up to the last value.
    pub fn faults(&self) -> u64
        ensures { result ≡ self.now.faults }
    {
        self.faults
    }

    /// Counts a fault, where the cause is one. The error to answer.
    fn note(&mut self, cause: Cause) -> KeeperError
        ensures error { result ≡ error_of cause }
        ensures counts { self.new.faults ≡ faults_after self.old.faults cause }
        ensures counted { self.old.faults ≤ self.new.faults }
        ensures same { self.new.connection ≡ self.old.connection }
    {
        let error = cause.error();
        if error == KeeperError::Fault {
            self.faults = self.faults.saturating_add(1);
        }
        error
    }
}

impl<S: Alter + Drop> Keeper for SqliteKeeper<S> {
    ghost use Rattle.std.specs.Prelude.{None};

    ghost tables = { λ _. None };

    ghost faults = { λ k. k.faults };

    fn history(&mut self, alloc: Global, driver: &Name) -> Result<Option<Kept>, KeeperError> {
        match history_of(&mut self.connection, alloc, driver) {
            Ok(found) => Ok(found),
            Err(cause) => Err(self.note(cause)),
        }
    }

    fn draft(&mut self, alloc: Global, monday: Monday) -> Result<Option<Draft>, KeeperError> {
        match draft_of(&mut self.connection, alloc, monday) {
            Ok(found) => Ok(found),
            Err(cause) => Err(self.note(cause)),
        }
    }

    fn published(&mut self, alloc: Global, monday: Monday) -> Result<Option<Issue>, KeeperError> {
        match issue_of(&mut self.connection, alloc, monday) {
            Ok(found) => Ok(found),
            Err(cause) => Err(self.note(cause)),
        }
    }

    fn put_draft(&mut self, alloc: Global, draft: &Draft) -> Result<(), KeeperError>
        ensures tables { Changes None (with_draft (draft_fields draft.now)) result None }
        ensures counts { self.new.faults ≡ failed_calls self.old.faults result }
        ensures counted { self.old.faults ≤ self.new.faults }
        ensures kept { KeepsCommitted result (state S.Store self.old.connection) (state S.Store self.new.connection) }
    {
        match put_draft(&mut self.connection, alloc, draft) {
            Ok(()) => Ok(()),
            Err(cause) => Err(self.note(cause)),
        }
    }

    fn publish(&mut self, alloc: Global, draft: &Draft) -> Result<u64, KeeperError>
        ensures receipt { Answers (λ receipt. receipt) None next_receipt result }
        ensures tables { Changes None (with_issue (draft_fields draft.now)) result None }
        ensures counts { self.new.faults ≡ failed_calls self.old.faults result }
        ensures counted { self.old.faults ≤ self.new.faults }
        ensures kept { KeepsCommitted result (state S.Store self.old.connection) (state S.Store self.new.connection) }
    {
        match publish(&mut self.connection, alloc, draft) {
            Ok(receipt) => Ok(receipt),
            Err(cause) => Err(self.note(cause)),
        }
    }
}

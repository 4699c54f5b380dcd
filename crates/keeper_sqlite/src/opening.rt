// A store taken over: its tables are made where they are missing, and older texts are moved.
ghost use Rattle.std.specs.Prelude.{◌≡◌, ◌≢◌, pos, false, Err, IfOk, IfSome};
ghost use Rattle.sqlite.specs.Held.{state};
ghost use Rattle.sqlite.specs.State.{HasCleanDisk};
ghost use Rattle.keeper_sqlite.specs.Commits.{CommitsNothing, KeepsCommitted};
ghost use Rattle.keeper_sqlite.specs.Versions.{TellVersion, IsStoredVersion};
ghost use Rattle.keeper_sqlite.specs.declared.errors.OpenError.TheVariants.{Version};

use crate::causes::Cause;
use crate::errors::OpenError;
use crate::keeper::SqliteKeeper;
use crate::moving::move_texts;
use crate::schema::{VERSION, has_table, make_tables, set_version};
use crate::statements::read;
use crate::values::number_at;
use sqlite::{Alter, Connection, Row, Transaction};
use std::alloc::Global;
use store_texts::version_query;

/// The version that the rows of table `format` tell, if there is one. Several rows tell version 0, which is none.
fn version_of(rows: &[Row]) -> Result<Option<i64>, Cause>
    ensures { IfOk result (λ version. IfSome version (TellVersion rows.now)) }
{
    match rows {
        [] => Ok(None),
        [row] => Ok(Some(number_at(row, 0)?)),
        _ => Ok(Some(0)),
    }
}

/// The version of the store's texts, if it has one.
#[tactic(auto, using(crate::proofs::Keeping::then, crate::proofs::Keeping::nothing))]
fn stored_version<S: Alter>(tx: &mut Transaction<'_, S>) -> Result<Option<i64>, Cause>
    ensures same { tx.new.conn.ghost_name ≡ tx.old.conn.ghost_name }
    ensures kept { CommitsNothing (state S.Store tx.old.conn.now) (state S.Store tx.new.conn.now) }
    ensures version { HasCleanDisk (state S.Store tx.new.conn.now) → IfOk result (λ version. IfSome version (IsStoredVersion (state S.Store tx.old.conn.now).now)) }
{
    if !has_table(tx, "format")? {
        return Ok(None);
    }
    let rows = read(tx, version_query(), &[])?;
    version_of(rows.as_slice())
}

/// Makes the tables that are missing, and moves the texts, which are older.
#[tactic(auto, using(crate::proofs::Keeping::then, crate::proofs::Keeping::nothing))]
fn renew<S: Alter>(tx: &mut Transaction<'_, S>, alloc: Global) -> Result<(), OpenError>
    ensures same { tx.new.conn.ghost_name ≡ tx.old.conn.ghost_name }
    ensures kept { CommitsNothing (state S.Store tx.old.conn.now) (state S.Store tx.new.conn.now) }
    ensures version { (n : _) → result ≢ Err (Version n) }
{
    make_tables(tx)?;
    set_version(tx)?;
    move_texts(tx, alloc)
}

/// Makes what is missing, and moves an older store's texts. The version is read before anything is written.
#[tactic(auto, using(crate::proofs::Keeping::then, crate::proofs::Keeping::nothing))]
fn prepare<S: Alter>(tx: &mut Transaction<'_, S>, alloc: Global) -> Result<(), OpenError>
    ensures same { tx.new.conn.ghost_name ≡ tx.old.conn.ghost_name }
    ensures kept { CommitsNothing (state S.Store tx.old.conn.now) (state S.Store tx.new.conn.now) }
    ensures version { (n : _) → result ≡ Err (Version n) → n ≢ pos 2 }
    ensures stored { (n : _) → result ≡ Err (Version n) → HasCleanDisk (state S.Store tx.new.conn.now) → IsStoredVersion (state S.Store tx.old.conn.now).now n }
{
    match stored_version(tx)? {
        Some(VERSION) => Ok(make_tables(tx)?),
        Some(version) => Err(OpenError::Version(version)),
        None => renew(tx, alloc),
    }
}

/// What `open_store` does to a connection that is within no transaction, as one transaction. `Version` comes only where the
/// store tells that version, which is not today's. Where it answers an error, what is committed is what was committed.
pub fn prepare_store<S: Alter>(
    connection: &mut Connection<S>,
    alloc: Global,
) -> Result<(), OpenError>
    requires idle { connection.old.in_transaction ≡ false }
    ensures idle { connection.new.in_transaction ≡ false }
    ensures version { (n : _) → result ≡ Err (Version n) → n ≢ pos 2 }
    ensures stored { (n : _) → result ≡ Err (Version n) → HasCleanDisk (state S.Store connection.new) → IsStoredVersion (state S.Store connection.old).now n }
    ensures kept { KeepsCommitted result (state S.Store connection.old) (state S.Store connection.new) }
{
    let mut tx = connection.transaction();
    prepare(&mut tx, alloc)?;
    tx.commit()?;
    Ok(())
}

/// Takes over a connection, by `prepare_store`: it makes the tables that are missing. Where the store tells no version of its
/// texts, they are from before a history's text told what is owed, and are moved. All of it is done as a whole or not at all.
/// A connection within a transaction is a `Fault`.
pub fn open_store<S: Alter + Drop>(
    alloc: Global,
    mut connection: Connection<S>,
) -> Result<SqliteKeeper<S>, OpenError>
    ensures none { IfOk result (λ keeper. keeper.faults ≡ 0) }
    ensures version { (n : _) → result ≡ Err (Version n) → n ≢ pos 2 }
{
    if !connection.is_autocommit() {
        return Err(OpenError::Fault);
    }
    prepare_store(&mut connection, alloc)?;
    Ok(SqliteKeeper::over(connection))
}

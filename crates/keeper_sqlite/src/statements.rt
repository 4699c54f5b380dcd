// Statements within a transaction. They commit nothing.
ghost use Rattle.std.specs.Prelude.{◌≡◌, IsTrue, IfOk};
ghost use Rattle.sqlite.specs.Held.{state};
ghost use Rattle.sqlite.specs.State.{HasCleanDisk};
ghost use Rattle.sqlite.specs.Values.{bound};
ghost use Rattle.store_texts.specs.Queries.{only_reads};
ghost use Rattle.keeper_sqlite.specs.Commits.{CommitsNothing, Answers};

use crate::causes::Cause;
use sqlite::types::ValueRef;
use sqlite::{Alter, Row, Transaction};

/// Runs a statement that shows no rows.
pub(crate) fn write<S: Alter>(
    tx: &mut Transaction<'_, S>,
    sql: &str,
    values: &[ValueRef<'_>],
) -> Result<(), Cause>
    ensures same { tx.new.conn.ghost_name ≡ tx.old.conn.ghost_name }
    ensures kept { CommitsNothing (state S.Store tx.old.conn.now) (state S.Store tx.new.conn.now) }
{
    tx.execute(sql, values)?;
    Ok(())
}

/// The rows that a query shows.
pub(crate) fn read<S: Alter>(
    tx: &mut Transaction<'_, S>,
    sql: &str,
    values: &[ValueRef<'_>],
) -> Result<Vec<Row>, Cause>
    requires reads { IsTrue (only_reads sql.now) }
    ensures same { tx.new.conn.ghost_name ≡ tx.old.conn.ghost_name }
    ensures kept { CommitsNothing (state S.Store tx.old.conn.now) (state S.Store tx.new.conn.now) }
    ensures unchanged { HasCleanDisk (state S.Store tx.new.conn.now) → IfOk result (λ _. (state S.Store tx.new.conn.now).now ≡ (state S.Store tx.old.conn.now).now) }
    ensures answers { HasCleanDisk (state S.Store tx.new.conn.now) → IfOk result (λ rows. Answers sql.now (bound values.now) (state S.Store tx.old.conn.now).now rows.items) }
{
    Ok(tx.query_all(sql, values)?)
}

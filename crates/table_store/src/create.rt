//! The tables are made.
ghost use Rattle.std.specs.Prelude.{◌≡◌, ◌+◌, OnOk, IfErr, IsTrue};
ghost use Rattle.sqlite.specs.Held.{state};
ghost use Rattle.sqlite.specs.State.{HasCleanDisk, Survives, KeepsCommit};
ghost use Rattle.table_store.specs.Schema.{old_schema, position, schema_up_to};
ghost use Rattle.table_store.specs.Values.{HasOldTables, HasTables, IsInside};
ghost use Rattle.table_store.specs.Making.{HasMade, HasSecond, IsFresh};
ghost use Rattle.table_store.specs.Transactions.{IsOfStore};

use crate::fault::{Failed, TableFault};
use crate::name::TableName;
use sqlite::{Alter, Connection};

/// Makes one table, where those before it are there.
fn create_table<S: Alter>(conn: &mut Connection<S>, table: TableName) -> Result<(), TableFault>
    requires { HasCleanDisk (state S.Store conn.old)
        → HasMade (position table) (state S.Store conn.old) }
    ensures made { HasCleanDisk (state S.Store conn.new)
        → OnOk result (HasMade (position table + 1) (state S.Store conn.new)) }
    ensures kept { HasCleanDisk (state S.Store conn.new)
        → KeepsCommit (state S.Store conn.old) (state S.Store conn.new) }
    ensures fault { IfErr result IsOfStore }
    ensures crash { Survives (state S.Store conn.old) (state S.Store conn.new) (λ _. ⊥) }
{
    match conn.execute(table.create_text(), &[]) {
        Ok(_) => Ok(()),
        Err(error) => Err(TableFault::Store(Failed::new(error))),
    }
}

/// Makes all tables in a file that has none, within the transaction that the caller began. After a
/// fault some may be there until the caller's `rollback`.
pub fn create_tables<S: Alter>(conn: &mut Connection<S>) -> Result<(), TableFault>
    requires bare { HasCleanDisk (state S.Store conn.old)
        → (state S.Store conn.old).now.schema ≡ schema_up_to 0 }
    requires inside { HasCleanDisk (state S.Store conn.old)
        → IsTrue (state S.Store conn.old).in_transaction }
    ensures made { HasCleanDisk (state S.Store conn.new)
        → OnOk result (IsFresh (state S.Store conn.new)) }
    ensures inside { HasCleanDisk (state S.Store conn.new)
        → OnOk result (IsInside (state S.Store conn.new)) }
    ensures kept { HasCleanDisk (state S.Store conn.new)
        → KeepsCommit (state S.Store conn.old) (state S.Store conn.new) }
    ensures fault { IfErr result IsOfStore }
    ensures crash { Survives (state S.Store conn.old) (state S.Store conn.new) (λ _. ⊥) }
{
    'tables: for place in 0..14 {
        create_table(conn, TableName::at(place))?;
    }
    Ok(())
}

/// Makes `spent` beside the tables of version 1, whatever rows they have, within the transaction that the caller began.
/// After a fault it may be there until the caller's `rollback`.
pub fn add_spent<S: Alter>(conn: &mut Connection<S>) -> Result<(), TableFault>
    requires { HasCleanDisk (state S.Store conn.old)
        → ((state S.Store conn.old).now.schema ≡ old_schema)
        × IsTrue (state S.Store conn.old).in_transaction }
    ensures made { HasCleanDisk (state S.Store conn.new)
        → OnOk result (HasSecond (state S.Store conn.old) (state S.Store conn.new)) }
    ensures tables { HasCleanDisk (state S.Store conn.new)
        → HasOldTables (state S.Store conn.old)
        → OnOk result (HasTables (state S.Store conn.new)) }
    ensures kept { HasCleanDisk (state S.Store conn.new)
        → KeepsCommit (state S.Store conn.old) (state S.Store conn.new) }
    ensures fault { IfErr result IsOfStore }
    ensures crash { Survives (state S.Store conn.old) (state S.Store conn.new) (λ _. ⊥) }
{
    match conn.execute(TableName::Spent.create_text(), &[]) {
        Ok(_) => Ok(()),
        Err(error) => Err(TableFault::Store(Failed::new(error))),
    }
}

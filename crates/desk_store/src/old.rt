//! Tables that an earlier program wrote, those of version 1.
ghost use Rattle.std.specs.Prelude.{◌≡◌, ◌≢◌, ◌⊎◌, [], false, IsTrue};
ghost use Rattle.sqlite.specs.Held.{state};
ghost use Rattle.sqlite.specs.State.{HasCleanDisk};
ghost use Rattle.sqlite_catalog.specs.Listing.{IsSound};
ghost use Rattle.desk_store.specs.Loading.{AreOldRows, Reads};
ghost use Rattle.desk_store.specs.Opening.{AreOfVersion, HasOtherVersion, WhyNoneOld};
ghost use Rattle.table_store.specs.Schema.{old_schema};
ghost use Rattle.table_store.specs.Values.{HasOldTables};

use crate::fault::OpenFault;
use crate::meta::MetaRow;
use sqlite::{Alter, Connection};
use std::alloc::Global;
use table_store::{TableFault, TableName, load_sheet};

/// The version of the tables that lack `spent`.
const OLD_VERSION: u64 = 1;

/// Whether there is a row, and each is of version 1.
fn are_old(rows: &[MetaRow]) -> bool
    ensures old { IsTrue result → (rows.now ≢ []) × AreOfVersion 1 rows.now }
    ensures other { result ≡ false → (rows.now ≡ []) ⊎ HasOtherVersion 1 rows.now }
{
    for row in rows {
        if row.version != OLD_VERSION {
            return false;
        }
    }
    !rows.is_empty()
}

/// The rows of `meta`, of which there is one at least. `Foreign` where there is none, where one is of another version,
/// or where one can't be read: no earlier program left such tables.
pub(crate) fn load_old_rows<S: Alter>(
    alloc: Global,
    conn: &mut Connection<S>,
) -> Result<Vec<MetaRow>, OpenFault>
    requires tables { HasCleanDisk (state S.Store conn.old)
        → HasOldTables (state S.Store conn.old) }
    requires listed { HasCleanDisk (state S.Store conn.old)
        → IsSound old_schema (state S.Store conn.old).now.trees }
    ensures { Reads (λ trees rows. AreOldRows trees rows.items) WhyNoneOld
        (state S.Store conn.old) (state S.Store conn.new) result }
{
    let rows = match load_sheet::<S, MetaRow>(alloc, conn, TableName::Meta, 1) {
        Ok(rows) => rows,
        Err(TableFault::BadRow(_)) => return Err(OpenFault::Foreign),
        Err(fault) => return Err(OpenFault::from(fault)),
    };
    if !are_old(rows.as_slice()) {
        return Err(OpenFault::Foreign);
    }
    Ok(rows)
}

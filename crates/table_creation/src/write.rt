ghost use Rattle.std.specs.Prelude.{◌≡◌, true};
ghost use Rattle.layout.specs.Words.{Words, load, store, fits};
ghost use Rattle.ducklake.specs.Commits.{create_table};
ghost use Rattle.ducklake.specs.Calls.{commit_at, effect};
ghost use Rattle.table_creation.specs.Lent.{create_table_leaves};
ghost use Rattle.table_creation.specs.TableRoom.{TableRoom};

use crate::append::append_columns;
use commits::append::{append_snapshot, append_table};
use layout::number::CatalogId;
use layout::outcome::{Counts, Terms};
use layout::record::CREATED_TABLE;
use lookup::find::latest_snapshot;

// 'Create table' in the runs that it changes: the new snapshot, the new table and its columns, with their names.
pub fn write_create_table(
    snapshots: &mut [u64],
    tables: &mut [u64],
    table_names: &mut [u8],
    columns: &mut [u64],
    column_names: &mut [u8],
    counts: Counts,
    terms: Terms,
    schema: CatalogId,
    name: &[u8],
    new_columns: &[u64],
    new_column_names: &[u8],
)
    requires { TableRoom snapshots.old tables.old table_names.old columns.old column_names.old counts
        name.now new_columns.now new_column_names.now }
    ensures { (w : Words) → fits w counts ≡ true → w.snapshots ≡ snapshots.old → w.tables ≡ tables.old
        → w.table_names ≡ table_names.old → w.columns ≡ columns.old → w.column_names ≡ column_names.old
        → create_table_leaves w snapshots.new tables.new table_names.new columns.new column_names.new
        ≡ store w counts (effect (load w counts) (commit_at terms
        (create_table schema.0 name.now new_columns.now new_column_names.now))) }
{
    let latest = latest_snapshot(snapshots, counts.snapshots);
    let id = latest.next_catalog_id;
    let begin = append_snapshot(
        snapshots,
        counts.snapshots,
        terms.time,
        CREATED_TABLE,
        id,
        1,
        0,
    );
    append_table(tables, table_names, counts.tables, id, begin, schema, name);
    append_columns(
        columns,
        column_names,
        counts.columns,
        id,
        begin,
        new_columns,
        new_column_names,
    );
}

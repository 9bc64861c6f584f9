ghost use Rattle.std.specs.Prelude.{◌≡◌, true};
ghost use Rattle.layout.specs.Words.{Words, load, store, fits};
ghost use Rattle.ducklake.specs.Commits.{drop_table, drop_schema};
ghost use Rattle.ducklake.specs.Calls.{commit_at, effect};
ghost use Rattle.drops.specs.Lent.{drop_schema_leaves, drop_table_leaves};
ghost use Rattle.drops.specs.DropRoom.{DropSchemaRoom, DropTableRoom};

use commits::append::append_snapshot;
use commits::end::{end_columns, end_data_files, end_delete_files, end_schema, end_table};
use layout::number::CatalogId;
use layout::outcome::{Counts, Terms};
use layout::record::{DROPPED_SCHEMA, DROPPED_TABLE};

// 'Drop schema' in the runs that it changes: the new snapshot, and the schema ended there.
pub fn write_drop_schema(
    snapshots: &mut [u64],
    schemas: &mut [u64],
    counts: Counts,
    terms: Terms,
    schema: CatalogId,
)
    requires { DropSchemaRoom snapshots.old schemas.old counts }
    ensures { (w : Words) → fits w counts ≡ true → w.snapshots ≡ snapshots.old → w.schemas ≡ schemas.old
        → drop_schema_leaves w snapshots.new schemas.new
        ≡ store w counts (effect (load w counts) (commit_at terms (drop_schema schema.0))) }
{
    let end = append_snapshot(
        snapshots,
        counts.snapshots,
        terms.time,
        DROPPED_SCHEMA,
        schema,
        0,
        0,
    );
    end_schema(schemas, counts.schemas, schema, end);
}

// 'Drop table' in the runs that it changes: the new snapshot, and the table and what is in it ended there.
pub fn write_drop_table(
    snapshots: &mut [u64],
    tables: &mut [u64],
    columns: &mut [u64],
    data_files: &mut [u64],
    delete_files: &mut [u64],
    counts: Counts,
    terms: Terms,
    table: CatalogId,
)
    requires { DropTableRoom snapshots.old tables.old columns.old data_files.old delete_files.old counts }
    ensures { (w : Words) → fits w counts ≡ true → w.snapshots ≡ snapshots.old → w.tables ≡ tables.old
        → w.columns ≡ columns.old → w.data_files ≡ data_files.old → w.delete_files ≡ delete_files.old
        → drop_table_leaves w snapshots.new tables.new columns.new data_files.new delete_files.new
        ≡ store w counts (effect (load w counts) (commit_at terms (drop_table table.0))) }
{
    let end = append_snapshot(
        snapshots,
        counts.snapshots,
        terms.time,
        DROPPED_TABLE,
        table,
        0,
        0,
    );
    end_table(tables, counts.tables, table, end);
    end_columns(columns, counts.columns, table, end);
    end_data_files(data_files, counts.data_files, table, end);
    end_delete_files(delete_files, counts.delete_files, table, end);
}

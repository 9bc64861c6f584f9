ghost use Rattle.layout.specs.Fields.{schema_size, table_size};
ghost use Rattle.layout.specs.Names.{padded};
ghost use Rattle.layout.specs.Catalog.{schema_record, table_record};
ghost use Rattle.layout.specs.Records.{schema_words, table_words};
ghost use Rattle.layout.specs.Words.{snapshots_in};
ghost use Rattle.ducklake.specs.Commits.{new_table, following};
ghost use Rattle.ducklake.specs.Liveness.{latest_of};
ghost use Rattle.call_laws.specs.Writes.{opened};
ghost use Rattle.commits.specs.Written.{SnapshotRoom, NamedRoom, SnapshotAppended, NamedAppended};

use crate::number::next_snapshot;
use layout::number::{CatalogId, RowId, SnapshotId};
use layout::record::{SchemaRecord, TableRecord};
use lookup::find::latest_snapshot;
use names::write_name;
use records::schema::write_schema;
use records::snapshot::write_snapshot;
use records::table::write_table;

// The snapshot after the latest of the first n, behind them. Its id is given.
pub fn append_snapshot(
    snapshots: &mut [u64],
    n: usize,
    time: u64,
    kind: u64,
    object: CatalogId,
    catalog_ids: u64,
    file_ids: u64,
) -> SnapshotId
    requires { SnapshotRoom snapshots.old n catalog_ids file_ids }
    ensures { SnapshotAppended snapshots.old n
        (following (latest_of (snapshots_in snapshots.old n)) time kind object.0 catalog_ids file_ids) result.0 snapshots.new }
{
    let latest = latest_snapshot(snapshots, n);
    let next = next_snapshot(latest, time, kind, object, catalog_ids, file_ids);
    write_snapshot(snapshots, n, next);
    next.id
}

// A schema that begins at a snapshot, behind the first n, and its name in its place.
pub fn append_schema(
    schemas: &mut [u64],
    names: &mut [u8],
    n: usize,
    id: CatalogId,
    begin: SnapshotId,
    name: &[u8],
)
    requires { NamedRoom schema_size schemas.old names.old n name.now }
    ensures { NamedAppended schema_size (schema_words (schema_record (opened begin.0 id.0 (record { name = padded name.entry.now }))))
        (padded name.entry.now) schemas.old names.old n schemas.new names.new }
{
    write_schema(
        schemas,
        n,
        SchemaRecord {
            id,
            begin,
            end: SnapshotId::ABSENT,
        },
    );
    write_name(names, n, name);
}

// A table without rows that begins at a snapshot, behind the first n, and its name in its place.
pub fn append_table(
    tables: &mut [u64],
    names: &mut [u8],
    n: usize,
    id: CatalogId,
    begin: SnapshotId,
    schema: CatalogId,
    name: &[u8],
)
    requires { NamedRoom table_size tables.old names.old n name.now }
    ensures { NamedAppended table_size
        (table_words (table_record (opened begin.0 id.0 (new_table schema.0 name.now))))
        (padded name.now) tables.old names.old n tables.new names.new }
{
    write_table(
        tables,
        n,
        TableRecord {
            id,
            begin,
            end: SnapshotId::ABSENT,
            schema,
            next_row_id: RowId(0),
        },
    );
    write_name(names, n, name);
}

ghost use Rattle.ducklake.specs.Readings.{Query};
ghost use Rattle.ducklake.specs.Calls.{query_at, perform_reading, PromisedReading, by_time};
ghost use Rattle.ducklake.specs.Lookup.{perform_lookup};

use catalog_readings::columns::catalog_list_columns;
use catalog_readings::file::catalog_copy_file;
use catalog_readings::files::catalog_list_files;
use catalog_readings::filtered::catalog_list_filtered_files;
use catalog_readings::named::catalog_table_by_name;
use catalog_readings::rows::catalog_list_rows;
use catalog_readings::schemas::catalog_list_schemas;
use catalog_readings::tables::catalog_list_tables;
use catalog_readings::time::catalog_snapshot_by_time;
use layout::number::{CatalogId, FileId, SnapshotId};
use layout::outcome::{Counts, Outcome};

// The schemas at a retained snapshot.
#[unsafe(no_mangle)]
pub extern "C" fn gukoremo_raw_list_schemas(
    snapshots: &[u64],
    schemas: &[u64],
    schema_names: &[u8],
    tables: &[u64],
    table_names: &[u8],
    columns: &[u64],
    column_names: &[u8],
    data_files: &[u64],
    delete_files: &[u64],
    positions: &[u64],
    statistics: &[u64],
    scheduled: &[u64],
    counts: Counts,
    snapshot: SnapshotId,
    area: &mut [u64],
) -> Outcome
    ensures { PromisedReading (perform_reading (query_at snapshot.0 Query.schemas))
        snapshots schemas schema_names tables table_names columns column_names data_files delete_files positions statistics scheduled
        counts area result }
{
    catalog_list_schemas(
        snapshots,
        schemas,
        schema_names,
        tables,
        table_names,
        columns,
        column_names,
        data_files,
        delete_files,
        positions,
        statistics,
        scheduled,
        counts,
        snapshot,
        area,
    )
}

// The tables of a schema at a retained snapshot.
#[unsafe(no_mangle)]
pub extern "C" fn gukoremo_raw_list_tables(
    snapshots: &[u64],
    schemas: &[u64],
    schema_names: &[u8],
    tables: &[u64],
    table_names: &[u8],
    columns: &[u64],
    column_names: &[u8],
    data_files: &[u64],
    delete_files: &[u64],
    positions: &[u64],
    statistics: &[u64],
    scheduled: &[u64],
    counts: Counts,
    snapshot: SnapshotId,
    schema: CatalogId,
    area: &mut [u64],
) -> Outcome
    ensures { PromisedReading (perform_reading (query_at snapshot.0 (Query.tables schema.0)))
        snapshots schemas schema_names tables table_names columns column_names data_files delete_files positions statistics scheduled
        counts area result }
{
    catalog_list_tables(
        snapshots,
        schemas,
        schema_names,
        tables,
        table_names,
        columns,
        column_names,
        data_files,
        delete_files,
        positions,
        statistics,
        scheduled,
        counts,
        snapshot,
        schema,
        area,
    )
}

// The columns of a table at a retained snapshot, by column_order.
#[unsafe(no_mangle)]
pub extern "C" fn gukoremo_raw_list_columns(
    snapshots: &[u64],
    schemas: &[u64],
    schema_names: &[u8],
    tables: &[u64],
    table_names: &[u8],
    columns: &[u64],
    column_names: &[u8],
    data_files: &[u64],
    delete_files: &[u64],
    positions: &[u64],
    statistics: &[u64],
    scheduled: &[u64],
    counts: Counts,
    snapshot: SnapshotId,
    table: CatalogId,
    area: &mut [u64],
) -> Outcome
    ensures { PromisedReading (perform_reading (query_at snapshot.0 (Query.columns table.0)))
        snapshots schemas schema_names tables table_names columns column_names data_files delete_files positions statistics scheduled
        counts area result }
{
    catalog_list_columns(
        snapshots,
        schemas,
        schema_names,
        tables,
        table_names,
        columns,
        column_names,
        data_files,
        delete_files,
        positions,
        statistics,
        scheduled,
        counts,
        snapshot,
        table,
        area,
    )
}

// The table of a schema that bears a name at a retained snapshot.
#[unsafe(no_mangle)]
pub extern "C" fn gukoremo_raw_table_by_name(
    snapshots: &[u64],
    schemas: &[u64],
    schema_names: &[u8],
    tables: &[u64],
    table_names: &[u8],
    columns: &[u64],
    column_names: &[u8],
    data_files: &[u64],
    delete_files: &[u64],
    positions: &[u64],
    statistics: &[u64],
    scheduled: &[u64],
    counts: Counts,
    snapshot: SnapshotId,
    schema: CatalogId,
    name: &[u8],
    area: &mut [u64],
) -> Outcome
    ensures { PromisedReading (perform_reading (query_at snapshot.0 (Query.table_named schema.0 name.now)))
        snapshots schemas schema_names tables table_names columns column_names data_files delete_files positions statistics scheduled
        counts area result }
{
    catalog_table_by_name(
        snapshots,
        schemas,
        schema_names,
        tables,
        table_names,
        columns,
        column_names,
        data_files,
        delete_files,
        positions,
        statistics,
        scheduled,
        counts,
        snapshot,
        schema,
        name,
        area,
    )
}

// The files of a table at a retained snapshot, each with its delete file.
#[unsafe(no_mangle)]
pub extern "C" fn gukoremo_raw_list_files(
    snapshots: &[u64],
    schemas: &[u64],
    schema_names: &[u8],
    tables: &[u64],
    table_names: &[u8],
    columns: &[u64],
    column_names: &[u8],
    data_files: &[u64],
    delete_files: &[u64],
    positions: &[u64],
    statistics: &[u64],
    scheduled: &[u64],
    counts: Counts,
    snapshot: SnapshotId,
    table: CatalogId,
    area: &mut [u64],
) -> Outcome
    ensures { PromisedReading (perform_reading (query_at snapshot.0 (Query.files table.0)))
        snapshots schemas schema_names tables table_names columns column_names data_files delete_files positions statistics scheduled
        counts area result }
{
    catalog_list_files(
        snapshots,
        schemas,
        schema_names,
        tables,
        table_names,
        columns,
        column_names,
        data_files,
        delete_files,
        positions,
        statistics,
        scheduled,
        counts,
        snapshot,
        table,
        area,
    )
}

// The files of a table at a retained snapshot that its statistics keep for `column = scalar`, each with its delete file.
#[unsafe(no_mangle)]
pub extern "C" fn gukoremo_raw_list_filtered_files(
    snapshots: &[u64],
    schemas: &[u64],
    schema_names: &[u8],
    tables: &[u64],
    table_names: &[u8],
    columns: &[u64],
    column_names: &[u8],
    data_files: &[u64],
    delete_files: &[u64],
    positions: &[u64],
    statistics: &[u64],
    scheduled: &[u64],
    counts: Counts,
    snapshot: SnapshotId,
    table: CatalogId,
    column: u64,
    scalar: i64,
    area: &mut [u64],
) -> Outcome
    ensures { PromisedReading (perform_reading (query_at snapshot.0 (Query.filtered_files table.0 column scalar)))
        snapshots schemas schema_names tables table_names columns column_names data_files delete_files positions statistics scheduled
        counts area result }
{
    catalog_list_filtered_files(
        snapshots,
        schemas,
        schema_names,
        tables,
        table_names,
        columns,
        column_names,
        data_files,
        delete_files,
        positions,
        statistics,
        scheduled,
        counts,
        snapshot,
        table,
        column,
        scalar,
        area,
    )
}

// The rows of a table at a retained snapshot.
#[unsafe(no_mangle)]
pub extern "C" fn gukoremo_raw_list_rows(
    snapshots: &[u64],
    schemas: &[u64],
    schema_names: &[u8],
    tables: &[u64],
    table_names: &[u8],
    columns: &[u64],
    column_names: &[u8],
    data_files: &[u64],
    delete_files: &[u64],
    positions: &[u64],
    statistics: &[u64],
    scheduled: &[u64],
    counts: Counts,
    snapshot: SnapshotId,
    table: CatalogId,
    area: &mut [u64],
) -> Outcome
    ensures { PromisedReading (perform_reading (query_at snapshot.0 (Query.rows table.0)))
        snapshots schemas schema_names tables table_names columns column_names data_files delete_files positions statistics scheduled
        counts area result }
{
    catalog_list_rows(
        snapshots,
        schemas,
        schema_names,
        tables,
        table_names,
        columns,
        column_names,
        data_files,
        delete_files,
        positions,
        statistics,
        scheduled,
        counts,
        snapshot,
        table,
        area,
    )
}

// The latest snapshot at or before a time.
#[unsafe(no_mangle)]
pub extern "C" fn gukoremo_raw_snapshot_by_time(
    snapshots: &[u64],
    schemas: &[u64],
    schema_names: &[u8],
    tables: &[u64],
    table_names: &[u8],
    columns: &[u64],
    column_names: &[u8],
    data_files: &[u64],
    delete_files: &[u64],
    positions: &[u64],
    statistics: &[u64],
    scheduled: &[u64],
    counts: Counts,
    t: u64,
    area: &mut [u64],
) -> Outcome
    ensures { PromisedReading (perform_reading (by_time t))
        snapshots schemas schema_names tables table_names columns column_names data_files delete_files positions statistics scheduled
        counts area result }
{
    catalog_snapshot_by_time(
        snapshots,
        schemas,
        schema_names,
        tables,
        table_names,
        columns,
        column_names,
        data_files,
        delete_files,
        positions,
        statistics,
        scheduled,
        counts,
        t,
        area,
    )
}

// The same record copied into the answer area: where no reference can be handed back.
#[unsafe(no_mangle)]
pub extern "C" fn gukoremo_raw_find_file<'a>(
    snapshots: &[u64],
    schemas: &[u64],
    schema_names: &[u8],
    tables: &[u64],
    table_names: &[u8],
    columns: &[u64],
    column_names: &[u8],
    data_files: &'a [u64],
    delete_files: &'a [u64],
    positions: &[u64],
    statistics: &[u64],
    scheduled: &[u64],
    counts: Counts,
    id: FileId,
    area: &mut [u64],
) -> Outcome
    ensures { PromisedReading (perform_lookup id.0)
        snapshots schemas schema_names tables table_names columns column_names data_files delete_files positions statistics scheduled
        counts area result }
{
    catalog_copy_file(
        snapshots,
        schemas,
        schema_names,
        tables,
        table_names,
        columns,
        column_names,
        data_files,
        delete_files,
        positions,
        statistics,
        scheduled,
        counts,
        id,
        area,
    )
}

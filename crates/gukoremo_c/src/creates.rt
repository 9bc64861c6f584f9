ghost use Rattle.ducklake.specs.Commits.{create_schema, create_table};
ghost use Rattle.ducklake.specs.Calls.{commit_at, perform, Promised};

use catalog_creates::create_schema::catalog_create_schema;
use catalog_creates::create_table::catalog_create_table;
use layout::number::CatalogId;
use layout::outcome::{Counts, Outcome, Terms};

// 'Create schema', a commit under these terms.
#[unsafe(no_mangle)]
pub extern "C" fn gukoremo_raw_create_schema(
    snapshots: &mut [u64],
    schemas: &mut [u64],
    schema_names: &mut [u8],
    tables: &mut [u64],
    table_names: &mut [u8],
    columns: &mut [u64],
    column_names: &mut [u8],
    data_files: &mut [u64],
    delete_files: &mut [u64],
    positions: &mut [u64],
    statistics: &mut [u64],
    scheduled: &mut [u64],
    counts: Counts,
    terms: Terms,
    name: &[u8],
    area: &mut [u64],
) -> Outcome
    ensures { Promised (perform (commit_at terms (create_schema name.now)))
        snapshots schemas schema_names tables table_names columns column_names data_files delete_files positions statistics scheduled
        counts area result }
{
    catalog_create_schema(
        snapshots,
        schemas,
        schema_names,
        tables,
        table_names,
        columns,
        column_names,
        data_files,
        delete_files,
        positions,
        statistics,
        scheduled,
        counts,
        terms,
        name,
        area,
    )
}

// 'Create table', a commit under these terms: the columns are two words each, type and nulls_allowed, with a name place each.
#[unsafe(no_mangle)]
pub extern "C" fn gukoremo_raw_create_table(
    snapshots: &mut [u64],
    schemas: &mut [u64],
    schema_names: &mut [u8],
    tables: &mut [u64],
    table_names: &mut [u8],
    columns: &mut [u64],
    column_names: &mut [u8],
    data_files: &mut [u64],
    delete_files: &mut [u64],
    positions: &mut [u64],
    statistics: &mut [u64],
    scheduled: &mut [u64],
    counts: Counts,
    terms: Terms,
    schema: CatalogId,
    name: &[u8],
    new_columns: &[u64],
    new_column_names: &[u8],
    area: &mut [u64],
) -> Outcome
    ensures { Promised
        (perform (commit_at terms (create_table schema.0 name.now new_columns.now new_column_names.now)))
        snapshots schemas schema_names tables table_names columns column_names data_files delete_files positions statistics scheduled
        counts area result }
{
    catalog_create_table(
        snapshots,
        schemas,
        schema_names,
        tables,
        table_names,
        columns,
        column_names,
        data_files,
        delete_files,
        positions,
        statistics,
        scheduled,
        counts,
        terms,
        schema,
        name,
        new_columns,
        new_column_names,
        area,
    )
}

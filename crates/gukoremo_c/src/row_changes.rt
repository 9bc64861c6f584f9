ghost use Rattle.ducklake.specs.Commits.{insert, delete};
ghost use Rattle.ducklake.specs.Calls.{commit_at, perform, Promised};

use catalog_row_changes::delete::catalog_delete;
use catalog_row_changes::insert::catalog_insert;
use layout::number::{CatalogId, FileId};
use layout::outcome::{Counts, Outcome, Terms};
use layout::record::Uuid;

// 'Insert', a commit on those terms: so many rows in a file of that UUID, with its statistics.
#[unsafe(no_mangle)]
pub extern "C" fn gukoremo_raw_insert(
    snapshots: &mut [u64],
    schemas: &mut [u64],
    schema_names: &mut [u8],
    tables: &mut [u64],
    table_names: &mut [u8],
    columns: &mut [u64],
    column_names: &mut [u8],
    data_files: &mut [u64],
    delete_files: &mut [u64],
    positions: &mut [u64],
    statistics: &mut [u64],
    scheduled: &mut [u64],
    counts: Counts,
    terms: Terms,
    table: CatalogId,
    record_count: u64,
    uuid: Uuid,
    new_statistics: &[u64],
    area: &mut [u64],
) -> Outcome
    ensures { Promised (perform (commit_at terms (insert table.0 record_count uuid new_statistics.now)))
        snapshots schemas schema_names tables table_names columns column_names data_files delete_files positions statistics scheduled
        counts area result }
{
    catalog_insert(
        snapshots,
        schemas,
        schema_names,
        tables,
        table_names,
        columns,
        column_names,
        data_files,
        delete_files,
        positions,
        statistics,
        scheduled,
        counts,
        terms,
        table,
        record_count,
        uuid,
        new_statistics,
        area,
    )
}

// 'Delete', a commit on these terms: positions of a data file, and the UUID of the new delete file.
#[unsafe(no_mangle)]
pub extern "C" fn gukoremo_raw_delete(
    snapshots: &mut [u64],
    schemas: &mut [u64],
    schema_names: &mut [u8],
    tables: &mut [u64],
    table_names: &mut [u8],
    columns: &mut [u64],
    column_names: &mut [u8],
    data_files: &mut [u64],
    delete_files: &mut [u64],
    positions: &mut [u64],
    statistics: &mut [u64],
    scheduled: &mut [u64],
    counts: Counts,
    terms: Terms,
    data_file: FileId,
    uuid: Uuid,
    new_positions: &[u64],
    area: &mut [u64],
) -> Outcome
    ensures { Promised (perform (commit_at terms (delete data_file.0 uuid new_positions.now)))
        snapshots schemas schema_names tables table_names columns column_names data_files delete_files positions statistics scheduled
        counts area result }
{
    catalog_delete(
        snapshots,
        schemas,
        schema_names,
        tables,
        table_names,
        columns,
        column_names,
        data_files,
        delete_files,
        positions,
        statistics,
        scheduled,
        counts,
        terms,
        data_file,
        uuid,
        new_positions,
        area,
    )
}

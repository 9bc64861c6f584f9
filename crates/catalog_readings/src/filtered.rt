ghost use Rattle.ducklake.specs.Readings.{Query};
ghost use Rattle.ducklake.specs.Calls.{query_at, perform_reading, PromisedReading};

use layout::number::{CatalogId, SnapshotId};
use layout::outcome::{Counts, Outcome};
use layout::tables::Tables;
use scans::filtered::list_filtered_files;
use soundness::checked::check;

// The files of a table at a retained snapshot that its statistics keep for `column = scalar`, each with its delete file.
#[unsafe(no_mangle)]
pub extern "C" fn catalog_list_filtered_files(
    snapshots: &[u64],
    schemas: &[u64],
    schema_names: &[u8],
    tables: &[u64],
    table_names: &[u8],
    columns: &[u64],
    column_names: &[u8],
    data_files: &[u64],
    delete_files: &[u64],
    positions: &[u64],
    statistics: &[u64],
    scheduled: &[u64],
    counts: Counts,
    snapshot: SnapshotId,
    table: CatalogId,
    column: u64,
    scalar: i64,
    area: &mut [u64],
) -> Outcome
    ensures { PromisedReading (perform_reading (query_at snapshot.0 (Query.filtered_files table.0 column scalar)))
        snapshots schemas schema_names tables table_names columns column_names data_files delete_files positions statistics scheduled
        counts area result }
{
    let lent = Tables {
        snapshots,
        schemas,
        schema_names,
        tables,
        table_names,
        columns,
        column_names,
        data_files,
        delete_files,
        positions,
        statistics,
        scheduled,
    };
    let checked = check(lent, counts);
    list_filtered_files(
        checked,
        snapshots,
        tables,
        columns,
        data_files,
        delete_files,
        statistics,
        counts,
        snapshot,
        table,
        column,
        scalar,
        area,
    )
}

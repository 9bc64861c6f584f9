ghost use Rattle.ducklake.specs.Readings.{Query};
ghost use Rattle.ducklake.specs.Calls.{query_at, perform_reading, PromisedReading};

use layout::number::{CatalogId, SnapshotId};
use layout::outcome::{Counts, Outcome};
use layout::tables::Tables;
use listings::columns::list_columns;
use soundness::checked::check;

// The columns of a table at a retained snapshot, by column_order.
#[unsafe(no_mangle)]
pub extern "C" fn catalog_list_columns(
    snapshots: &[u64],
    schemas: &[u64],
    schema_names: &[u8],
    tables: &[u64],
    table_names: &[u8],
    columns: &[u64],
    column_names: &[u8],
    data_files: &[u64],
    delete_files: &[u64],
    positions: &[u64],
    statistics: &[u64],
    scheduled: &[u64],
    counts: Counts,
    snapshot: SnapshotId,
    table: CatalogId,
    area: &mut [u64],
) -> Outcome
    ensures { PromisedReading (perform_reading (query_at snapshot.0 (Query.columns table.0)))
        snapshots schemas schema_names tables table_names columns column_names data_files delete_files positions statistics scheduled
        counts area result }
{
    let lent = Tables {
        snapshots,
        schemas,
        schema_names,
        tables,
        table_names,
        columns,
        column_names,
        data_files,
        delete_files,
        positions,
        statistics,
        scheduled,
    };
    let checked = check(lent, counts);
    list_columns(
        checked, snapshots, tables, columns, counts, snapshot, table, area,
    )
}

ghost use Rattle.ducklake.specs.Calls.{by_time, perform_reading, PromisedReading};

use layout::outcome::{Counts, Outcome};
use layout::tables::Tables;
use listings::time::find_snapshot_by_time;
use soundness::checked::check;

// The latest snapshot at or before a time.
#[unsafe(no_mangle)]
pub extern "C" fn catalog_snapshot_by_time(
    snapshots: &[u64],
    schemas: &[u64],
    schema_names: &[u8],
    tables: &[u64],
    table_names: &[u8],
    columns: &[u64],
    column_names: &[u8],
    data_files: &[u64],
    delete_files: &[u64],
    positions: &[u64],
    statistics: &[u64],
    scheduled: &[u64],
    counts: Counts,
    t: u64,
    area: &mut [u64],
) -> Outcome
    ensures { PromisedReading (perform_reading (by_time t))
        snapshots schemas schema_names tables table_names columns column_names data_files delete_files positions statistics scheduled
        counts area result }
{
    let lent = Tables {
        snapshots,
        schemas,
        schema_names,
        tables,
        table_names,
        columns,
        column_names,
        data_files,
        delete_files,
        positions,
        statistics,
        scheduled,
    };
    let checked = check(lent, counts);
    find_snapshot_by_time(checked, snapshots, counts, t, area)
}

ghost use Rattle.ducklake.specs.Calls.{expire_snapshots, perform, Promised};

use layout::outcome::{Counts, Outcome};
use layout::tables::Tables;
use snapshot_expiry::expire::expire_snapshots;
use soundness::checked::check;

// Expiry of the snapshots of these ids; the files that it removes are scheduled with that time.
#[unsafe(no_mangle)]
pub extern "C" fn catalog_expire(
    snapshots: &mut [u64],
    schemas: &mut [u64],
    schema_names: &mut [u8],
    tables: &mut [u64],
    table_names: &mut [u8],
    columns: &mut [u64],
    column_names: &mut [u8],
    data_files: &mut [u64],
    delete_files: &mut [u64],
    positions: &mut [u64],
    statistics: &mut [u64],
    scheduled: &mut [u64],
    counts: Counts,
    ids: &[u64],
    time: u64,
    area: &mut [u64],
) -> Outcome
    ensures { Promised (perform (expire_snapshots ids.now time))
        snapshots schemas schema_names tables table_names columns column_names data_files delete_files positions statistics scheduled
        counts area result }
{
    let lent = Tables {
        snapshots,
        schemas,
        schema_names,
        tables,
        table_names,
        columns,
        column_names,
        data_files,
        delete_files,
        positions,
        statistics,
        scheduled,
    };
    let checked = check(lent, counts);
    expire_snapshots(
        checked,
        snapshots,
        schemas,
        schema_names,
        tables,
        table_names,
        columns,
        column_names,
        data_files,
        delete_files,
        positions,
        statistics,
        scheduled,
        counts,
        ids,
        time,
    )
}

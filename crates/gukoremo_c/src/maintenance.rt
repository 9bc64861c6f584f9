ghost use Rattle.ducklake.specs.Calls.{expire_snapshots, perform, Promised, clean_up};

use catalog_maintenance::clean_up::catalog_cleanup;
use catalog_maintenance::expire::catalog_expire;
use layout::outcome::{Counts, Outcome};

// Expiry of the snapshots of these ids; the files that it removes are scheduled with that time.
#[unsafe(no_mangle)]
pub extern "C" fn gukoremo_raw_expire(
    snapshots: &mut [u64],
    schemas: &mut [u64],
    schema_names: &mut [u8],
    tables: &mut [u64],
    table_names: &mut [u8],
    columns: &mut [u64],
    column_names: &mut [u8],
    data_files: &mut [u64],
    delete_files: &mut [u64],
    positions: &mut [u64],
    statistics: &mut [u64],
    scheduled: &mut [u64],
    counts: Counts,
    ids: &[u64],
    time: u64,
    area: &mut [u64],
) -> Outcome
    ensures { Promised (perform (expire_snapshots ids.now time))
        snapshots schemas schema_names tables table_names columns column_names data_files delete_files positions statistics scheduled
        counts area result }
{
    catalog_expire(
        snapshots,
        schemas,
        schema_names,
        tables,
        table_names,
        columns,
        column_names,
        data_files,
        delete_files,
        positions,
        statistics,
        scheduled,
        counts,
        ids,
        time,
        area,
    )
}

// Cleanup: the files that were scheduled before t are handed out and leave the scheduled table.
#[unsafe(no_mangle)]
pub extern "C" fn gukoremo_raw_cleanup(
    snapshots: &mut [u64],
    schemas: &mut [u64],
    schema_names: &mut [u8],
    tables: &mut [u64],
    table_names: &mut [u8],
    columns: &mut [u64],
    column_names: &mut [u8],
    data_files: &mut [u64],
    delete_files: &mut [u64],
    positions: &mut [u64],
    statistics: &mut [u64],
    scheduled: &mut [u64],
    counts: Counts,
    t: u64,
    area: &mut [u64],
) -> Outcome
    ensures { Promised (perform (clean_up t))
        snapshots schemas schema_names tables table_names columns column_names data_files delete_files positions statistics scheduled
        counts area result }
{
    catalog_cleanup(
        snapshots,
        schemas,
        schema_names,
        tables,
        table_names,
        columns,
        column_names,
        data_files,
        delete_files,
        positions,
        statistics,
        scheduled,
        counts,
        t,
        area,
    )
}

ghost use Rattle.ducklake.specs.Calls.{clean_up, perform, Promised};

use cleanup::clean::clean_up;
use layout::outcome::{Counts, Outcome};
use layout::tables::Tables;
use soundness::checked::check;

// Cleanup: the files that were scheduled before t are handed out and leave the scheduled table.
#[unsafe(no_mangle)]
pub extern "C" fn catalog_cleanup(
    snapshots: &mut [u64],
    schemas: &mut [u64],
    schema_names: &mut [u8],
    tables: &mut [u64],
    table_names: &mut [u8],
    columns: &mut [u64],
    column_names: &mut [u8],
    data_files: &mut [u64],
    delete_files: &mut [u64],
    positions: &mut [u64],
    statistics: &mut [u64],
    scheduled: &mut [u64],
    counts: Counts,
    t: u64,
    area: &mut [u64],
) -> Outcome
    ensures { Promised (perform (clean_up t))
        snapshots schemas schema_names tables table_names columns column_names data_files delete_files positions statistics scheduled
        counts area result }
{
    let lent = Tables {
        snapshots,
        schemas,
        schema_names,
        tables,
        table_names,
        columns,
        column_names,
        data_files,
        delete_files,
        positions,
        statistics,
        scheduled,
    };
    let checked = check(lent, counts);
    clean_up(checked, scheduled, counts, t, area)
}

ghost use Rattle.ducklake.specs.Calls.{perform_fresh, Promised};

use crate::start::start;
use layout::outcome::{Counts, Outcome};
use layout::tables::Tables;
use refusals::room::capacity;

// Fresh: "It ignores the used counts it is given, writes just these two records and the name, and frees nothing."
#[unsafe(no_mangle)]
pub extern "C" fn catalog_fresh(
    snapshots: &mut [u64],
    schemas: &mut [u64],
    schema_names: &mut [u8],
    tables: &mut [u64],
    table_names: &mut [u8],
    columns: &mut [u64],
    column_names: &mut [u8],
    data_files: &mut [u64],
    delete_files: &mut [u64],
    positions: &mut [u64],
    statistics: &mut [u64],
    scheduled: &mut [u64],
    counts: Counts,
    time: u64,
    area: &mut [u64],
) -> Outcome
    ensures { Promised (perform_fresh time)
        snapshots schemas schema_names tables table_names columns column_names data_files delete_files positions statistics scheduled
        counts area result }
{
    let lent = Tables {
        snapshots,
        schemas,
        schema_names,
        tables,
        table_names,
        columns,
        column_names,
        data_files,
        delete_files,
        positions,
        statistics,
        scheduled,
    };
    let room = capacity(lent);
    start(room, snapshots, schemas, schema_names, counts, time)
}

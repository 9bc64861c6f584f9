ghost use Rattle.layout.specs.Lent.{at_entry, at_exit};
ghost use Rattle.call_lists.specs.Playing.{calls_played, SessionPromise};

use call_lists::outcome::Session;
use catalog_player::session::catalog_play;
use layout::outcome::Counts;

// Plays a list of calls and readings, each on what the one before left and with what is left of the answer area, and tells of each its outcome: up to a
// record that asks for nothing, as many as can be told. The first may be Fresh. The tables are judged once where they are sound and chained,
// and before each call where they are not.
#[unsafe(no_mangle)]
pub extern "C" fn gukoremo_raw_play(
    snapshots: &mut [u64],
    schemas: &mut [u64],
    schema_names: &mut [u8],
    tables: &mut [u64],
    table_names: &mut [u8],
    columns: &mut [u64],
    column_names: &mut [u8],
    data_files: &mut [u64],
    delete_files: &mut [u64],
    positions: &mut [u64],
    statistics: &mut [u64],
    scheduled: &mut [u64],
    counts: Counts,
    calls: &[u64],
    lists: &[u64],
    names: &[u8],
    area: &mut [u64],
    told: &mut [u64],
) -> Session
    ensures { SessionPromise calls.now lists.now names.now
        (at_entry snapshots schemas schema_names tables table_names columns column_names data_files delete_files positions statistics scheduled)
        counts area.old (calls_played calls.now lists.now names.now told.old) told.old result
        (at_exit snapshots schemas schema_names tables table_names columns column_names data_files delete_files positions statistics scheduled)
        area.new told.new }
{
    catalog_play(
        snapshots,
        schemas,
        schema_names,
        tables,
        table_names,
        columns,
        column_names,
        data_files,
        delete_files,
        positions,
        statistics,
        scheduled,
        counts,
        calls,
        lists,
        names,
        area,
        told,
    )
}

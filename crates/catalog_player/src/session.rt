ghost use Rattle.std.specs.Prelude.{◌≡◌, ◌*◌, ◌≤◌, length};
ghost use Rattle.layout.specs.Lent.{at_entry, at_exit};
ghost use Rattle.call_lists.specs.Records.{call_size};
ghost use Rattle.call_lists.specs.Playing.{told_size, calls_played, SessionPromise};

use crate::judge::{Judged, judge};
use call_dispatch::play::play;
use call_lists::outcome::{Session, TOLD_SIZE, write_outcome};
use call_lists::record::{CallRecord, call_at, count_calls};
use layout::outcome::Counts;
use layout::tables::Tables;
use refusals::checked::Checked;

// How many records are played.
fn calls_played(calls: &[u64], lists: &[u64], names: &[u8], told: &[u64]) -> usize
    ensures { (result ≡ calls_played calls.now lists.now names.now told.now)
        × (call_size * result ≤ length calls.now) × (told_size * result ≤ length told.now) }
{
    let most = (calls.len() / CallRecord::SIZE).min(told.len() / TOLD_SIZE);
    count_calls(calls, lists.len(), names.len(), most)
}

// Plays a list of calls and readings, each on what the one before left and with what is left of the answer area, and tells of each its outcome: up to a
// record that asks for nothing, as many as can be told. The first may be Fresh. The tables are judged once where they are sound and chained,
// and before each call where they are not.
#[unsafe(no_mangle)]
pub extern "C" fn catalog_play(
    snapshots: &mut [u64],
    schemas: &mut [u64],
    schema_names: &mut [u8],
    tables: &mut [u64],
    table_names: &mut [u8],
    columns: &mut [u64],
    column_names: &mut [u8],
    data_files: &mut [u64],
    delete_files: &mut [u64],
    positions: &mut [u64],
    statistics: &mut [u64],
    scheduled: &mut [u64],
    counts: Counts,
    calls: &[u64],
    lists: &[u64],
    names: &[u8],
    area: &mut [u64],
    told: &mut [u64],
) -> Session
    ensures { SessionPromise calls.now lists.now names.now
        (at_entry snapshots schemas schema_names tables table_names columns column_names data_files delete_files positions statistics scheduled)
        counts area.old (calls_played calls.now lists.now names.now told.old) told.old result
        (at_exit snapshots schemas schema_names tables table_names columns column_names data_files delete_files positions statistics scheduled)
        area.new told.new }
{
    let n = calls_played(calls, lists, names, told);
    let mut held = counts;
    let mut judged = Judged {
        checked: Checked {
            sound: false,
            room: counts,
        },
        lasting: false,
    };
    let mut answered: usize = 0;
    for i in 0..n {
        let call = call_at(calls, i);
        let lent = Tables {
            snapshots,
            schemas,
            schema_names,
            tables,
            table_names,
            columns,
            column_names,
            data_files,
            delete_files,
            positions,
            statistics,
            scheduled,
        };
        judged = judge(judged, lent, held);
        let outcome = play(
            judged.checked,
            snapshots,
            schemas,
            schema_names,
            tables,
            table_names,
            columns,
            column_names,
            data_files,
            delete_files,
            positions,
            statistics,
            scheduled,
            held,
            lists,
            names,
            call,
            &mut area[answered..],
        );
        write_outcome(told, i, outcome);
        held = outcome.counts;
        answered += outcome.length;
    }
    Session {
        played: n,
        answered,
        counts: held,
    }
}

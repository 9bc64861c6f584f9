ghost use Rattle.std.specs.Prelude.{◌≡◌, true, ◌&&◌, List, ℕ, ◌+◌};
ghost use Rattle.layout.specs.Catalog.{snapshot_of};
ghost use Rattle.layout.specs.Refusals.{number_of};
ghost use Rattle.layout.specs.Words.{Words, tables_in};
ghost use Rattle.ducklake.specs.Kinds.{inserted_into_table};
ghost use Rattle.ducklake.specs.Liveness.{table_of_id};
ghost use Rattle.ducklake.specs.Soundness.{in_limit, snapshot_in_range};
ghost use Rattle.ducklake.specs.Commits.{insert, following};
ghost use Rattle.ducklake.specs.Calls.{commit_at, refusal};
ghost use Rattle.refusals.specs.Checked.{checked_of};
ghost use Rattle.row_insertion.specs.Written.{insert_adds, InsertChecked, NumbersChecked};

use crate::rows::{is_record_count, next_row_id, rows_fit};
use crate::statistics::{given_count, statistics_argument_fits};
use commits::number::{next_snapshot, snapshot_fits};
use commits::time::is_in_time;
use commits::uuid::uuid_is_free;
use layout::number::CatalogId;
use layout::outcome::{Counts, Terms};
use layout::record::{INSERTED_INTO_TABLE, SnapshotRecord, Uuid};
use layout::refusal::Refusal;
use lookup::find::latest_snapshot;
use lookup::live::table_is_live;
use refusals::checked::Checked;
use refusals::first::first_refused;
use refusals::room::has_room;

// What an insert adds: a snapshot, a data file and its statistics.
pub fn insert_adds(new_statistics: &[u64]) -> Counts
    ensures { result ≡ insert_adds new_statistics.now }
{
    let given = given_count(new_statistics);
    Counts {
        snapshots: 1,
        schemas: 0,
        tables: 0,
        columns: 0,
        data_files: 1,
        delete_files: 0,
        positions: 0,
        statistics: given,
        scheduled: 0,
    }
}

// "4 a number would pass 2^62": whether neither those of the next snapshot do, nor the table's next row number.
fn numbers_fit(
    latest: SnapshotRecord,
    tables: &[u64],
    n: usize,
    time: u64,
    table: CatalogId,
    record_count: u64,
) -> bool
    requires { NumbersChecked (snapshot_of latest) tables.now n }
    ensures { (names : List ℕ) → result ≡ (snapshot_in_range (following (snapshot_of latest) time inserted_into_table table.0 0 1)
        && in_limit ((table_of_id (tables_in tables.now names n) table.0).body.next_row_id + record_count)) }
{
    let next = next_snapshot(latest, time, INSERTED_INTO_TABLE, table, 0, 1);
    let fits = snapshot_fits(next);
    let first = next_row_id(tables, n, table);
    let rows = rows_fit(first, record_count);
    fits & rows
}

// The refusal of 'insert' on tables that were checked: of its tests, in the definition's order, the first that isn't passed.
pub fn refuse_insert(
    checked: Checked,
    snapshots: &[u64],
    tables: &[u64],
    columns: &[u64],
    data_files: &[u64],
    delete_files: &[u64],
    scheduled: &[u64],
    counts: Counts,
    terms: Terms,
    table: CatalogId,
    record_count: u64,
    uuid: Uuid,
    new_statistics: &[u64],
) -> Result<(), Refusal>
    requires { checked.sound ≡ true
        → InsertChecked snapshots.now tables.now columns.now data_files.now delete_files.now scheduled.now counts }
    ensures { (w : Words) → w.snapshots ≡ snapshots.now → w.tables ≡ tables.now → w.columns ≡ columns.now
        → w.data_files ≡ data_files.now → w.delete_files ≡ delete_files.now → w.scheduled ≡ scheduled.now
        → checked ≡ checked_of w counts
        → (m : ℕ) → number_of result ≡ refusal w counts m (commit_at terms (insert table.0 record_count uuid new_statistics.now)) }
{
    if !checked.sound {
        return Err(Refusal::NotSound);
    }
    let latest = latest_snapshot(snapshots, counts.snapshots);
    let live = table_is_live(tables, counts.tables, table, latest.id);
    let in_time = is_in_time(latest, terms.time);
    let counted = is_record_count(record_count);
    let free = uuid_is_free(data_files, delete_files, scheduled, counts, uuid);
    let given = statistics_argument_fits(
        columns,
        counts.columns,
        table,
        latest.id,
        record_count,
        latest.next_file_id,
        new_statistics,
    );
    let fits = numbers_fit(
        latest,
        tables,
        counts.tables,
        terms.time,
        table,
        record_count,
    );
    let added = insert_adds(new_statistics);
    let room = has_room(checked.room, counts, added);
    first_refused(&[
        (live, Refusal::NotLive),
        (in_time, Refusal::TimeFalls),
        (counted, Refusal::BadRecordCount),
        (free, Refusal::UuidTaken),
        (given, Refusal::BadStatistics),
        (fits, Refusal::NumberTooLarge),
        (room, Refusal::NoRoom),
    ])
}

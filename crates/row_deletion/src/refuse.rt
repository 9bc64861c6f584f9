ghost use Rattle.std.specs.Prelude.{◌≡◌, ℕ};
ghost use Rattle.layout.specs.Refusals.{number_of};
ghost use Rattle.ducklake.specs.Commits.{delete};
ghost use Rattle.ducklake.specs.Calls.{commit_at, refusal};
ghost use Rattle.row_deletion.specs.Lent.{DeleteLent, delete_adds};

use crate::deleted::positions_deleted;
use crate::file::data_file_of_id;
use crate::positions::{none_deleted, positions_fit};
use commits::number::{next_snapshot, snapshot_fits};
use commits::time::is_in_time;
use commits::uuid::uuid_is_free;
use layout::number::FileId;
use layout::outcome::{Counts, Terms};
use layout::record::{DELETED_FROM_TABLE, Uuid};
use layout::refusal::Refusal;
use lookup::find::latest_snapshot;
use lookup::live::data_file_is_live;
use refusals::checked::Checked;
use refusals::first::first_refused;
use refusals::room::has_room;

// What a delete adds: a snapshot, and a delete file of so many positions.
pub fn delete_adds(positions: usize) -> Counts
    ensures { result ≡ delete_adds positions }
{
    Counts {
        snapshots: 1,
        schemas: 0,
        tables: 0,
        columns: 0,
        data_files: 0,
        delete_files: 1,
        positions,
        statistics: 0,
        scheduled: 0,
    }
}

// The refusal of 'delete' on tables that were checked: of its tests, in the definition's order, the first that isn't passed.
pub fn refuse_delete(
    checked: Checked,
    snapshots: &[u64],
    data_files: &[u64],
    delete_files: &[u64],
    positions: &[u64],
    scheduled: &[u64],
    counts: Counts,
    terms: Terms,
    data_file: FileId,
    uuid: Uuid,
    new_positions: &[u64],
) -> Result<(), Refusal>
    requires { DeleteLent checked snapshots.now data_files.now delete_files.now positions.now scheduled.now counts }
    ensures { (l : DeleteLent checked snapshots.now data_files.now delete_files.now positions.now
        scheduled.now counts) (m : ℕ)
        → number_of result ≡ refusal l.words counts m (commit_at terms (delete data_file.0 uuid new_positions.now)) }
{
    if !checked.sound {
        return Err(Refusal::NotSound);
    }
    let latest = latest_snapshot(snapshots, counts.snapshots);
    let live = data_file_is_live(data_files, counts.data_files, data_file, latest.id);
    let in_time = is_in_time(latest, terms.time);
    let free = uuid_is_free(data_files, delete_files, scheduled, counts, uuid);
    let file = data_file_of_id(data_files, counts.data_files, data_file);
    let fit = positions_fit(file.record_count, new_positions);
    let old = positions_deleted(
        delete_files,
        counts.delete_files,
        positions,
        data_file,
        latest.id,
    );
    let undeleted = none_deleted(old, new_positions);
    let next = next_snapshot(latest, terms.time, DELETED_FROM_TABLE, file.table, 0, 1);
    let fits = snapshot_fits(next);
    let added = delete_adds(old.len() + new_positions.len());
    let room = has_room(checked.room, counts, added);
    first_refused(&[
        (live, Refusal::NotLive),
        (in_time, Refusal::TimeFalls),
        (free, Refusal::UuidTaken),
        (fit, Refusal::BadPositions),
        (undeleted, Refusal::AlreadyDeleted),
        (fits, Refusal::NumberTooLarge),
        (room, Refusal::NoRoom),
    ])
}

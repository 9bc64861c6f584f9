ghost use Rattle.std.specs.Prelude.{◌≡◌};
ghost use Rattle.ducklake.specs.Refusals.{already_deleted};
ghost use Rattle.row_deletion.specs.Deleted.{deleted_in, refused_place};
ghost use Rattle.row_deletion.specs.DeleteRoom.{OffenceSought};

use crate::deleted::positions_deleted;
use crate::positions::first_deleted;
use layout::number::FileId;
use layout::outcome::{ALREADY_DELETED, Counts};
use lookup::find::latest_snapshot;

// The place of a delete of that number: with 17 that of the first position that is deleted already, else 0.
pub fn refused_place(
    number: u64,
    snapshots: &[u64],
    delete_files: &[u64],
    positions: &[u64],
    counts: Counts,
    data_file: FileId,
    new_positions: &[u64],
) -> u64
    requires { number ≡ already_deleted → OffenceSought snapshots.now delete_files.now positions.now counts new_positions.now }
    ensures { result ≡ refused_place number
        (deleted_in snapshots.now delete_files.now positions.now counts data_file.0) new_positions.now }
{
    if number != ALREADY_DELETED {
        return 0;
    }
    let latest = latest_snapshot(snapshots, counts.snapshots);
    let old = positions_deleted(
        delete_files,
        counts.delete_files,
        positions,
        data_file,
        latest.id,
    );
    let found = first_deleted(old, new_positions);
    match found {
        Some(i) => i as u64,
        None => 0,
    }
}

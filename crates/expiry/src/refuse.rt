ghost use Rattle.std.specs.Prelude.{◌≡◌, true, ℕ};
ghost use Rattle.layout.specs.Refusals.{number_of};
ghost use Rattle.layout.specs.Words.{Words, load};
ghost use Rattle.ducklake.specs.Arguments.{expiry_list_fits};
ghost use Rattle.ducklake.specs.Calls.{expire_snapshots, refusal};
ghost use Rattle.refusals.specs.Checked.{checked_of};
ghost use Rattle.expiry.specs.Removed.{ExpiryChecked, files_removed};

use crate::flag::Records;
use crate::list::{all_retained, lacks, list_fits};
use crate::remaining::Remaining;
use layout::number::TABLE_LIMIT;
use layout::outcome::Counts;
use layout::record::{DataFileRecord, DeleteFileRecord};
use layout::refusal::Refusal;
use lookup::find::latest_snapshot;
use refusals::checked::Checked;
use refusals::first::first_refused;
use refusals::room::more_fit;

// How many files an expiry removes, and so schedules; 0 with a list that doesn't fit.
fn count_files_removed(
    snapshots: &[u64],
    data_files: &[u64],
    delete_files: &[u64],
    counts: Counts,
    ids: &[u64],
) -> usize
    requires { ExpiryChecked snapshots.now data_files.now delete_files.now counts }
    ensures { expiry_list_fits ids.now ≡ true → (w : Words) → w.snapshots ≡ snapshots.now
        → w.data_files ≡ data_files.now → w.delete_files ≡ delete_files.now
        → result ≡ files_removed (load w counts) ids.now }
{
    let fits = list_fits(ids);
    if !fits {
        return 0;
    }
    let mut left = [0u64; TABLE_LIMIT];
    let left = Remaining::unlisted(snapshots, counts.snapshots, ids, &mut left);
    let files = Records {
        words: data_files,
        size: DataFileRecord::SIZE,
        life: DataFileRecord::BEGIN,
        n: counts.data_files,
    };
    let deletes = Records {
        words: delete_files,
        size: DeleteFileRecord::SIZE,
        life: DeleteFileRecord::BEGIN,
        n: counts.delete_files,
    };
    files.count_removed(left) + deletes.count_removed(left)
}

// The refusal of an expiry on tables that were checked: of its tests, in the definition's order, the first that isn't passed. It needs room for the files
// that it schedules alone, since all else shrinks; its answer is empty, so no area is too short for it.
pub fn refuse_expiry(
    checked: Checked,
    snapshots: &[u64],
    data_files: &[u64],
    delete_files: &[u64],
    counts: Counts,
    ids: &[u64],
) -> Result<(), Refusal>
    requires { checked.sound ≡ true → ExpiryChecked snapshots.now data_files.now delete_files.now counts }
    ensures { (w : Words) → w.snapshots ≡ snapshots.now → w.data_files ≡ data_files.now
        → w.delete_files ≡ delete_files.now → checked ≡ checked_of w counts
        → (m time : ℕ) → number_of result ≡ refusal w counts m (expire_snapshots ids.now time) }
{
    if !checked.sound {
        return Err(Refusal::NotSound);
    }
    let retained = all_retained(snapshots, counts.snapshots, ids);
    let fits = list_fits(ids);
    let latest = latest_snapshot(snapshots, counts.snapshots);
    let keeps_latest = lacks(ids, latest.id);
    let removed = count_files_removed(snapshots, data_files, delete_files, counts, ids);
    let room = more_fit(counts.scheduled, removed, checked.room.scheduled);
    first_refused(&[
        (retained, Refusal::NotRetained),
        (fits, Refusal::BadExpiryList),
        (keeps_latest, Refusal::ExpiresLatest),
        (room, Refusal::NoRoom),
    ])
}

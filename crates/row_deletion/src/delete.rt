ghost use Rattle.std.specs.Prelude.{List, ℕ};
ghost use Rattle.ducklake.specs.Commits.{delete};
ghost use Rattle.ducklake.specs.Calls.{commit_at, perform, Promise};
ghost use Rattle.row_deletion.specs.Lent.{DeleteLent, delete_leaves};

use crate::place::refused_place;
use crate::refuse::{delete_adds, refuse_delete};
use crate::write::write_delete;
use layout::number::FileId;
use layout::outcome::{Counts, Outcome, Terms};
use layout::record::Uuid;
use refusals::checked::Checked;
use refusals::room::counts_after;

// 'Delete' on tables that were checked: refused, with 17 at the first position that is deleted already, or written.
pub fn delete_rows(
    checked: Checked,
    snapshots: &mut [u64],
    data_files: &[u64],
    delete_files: &mut [u64],
    positions: &mut [u64],
    scheduled: &[u64],
    counts: Counts,
    terms: Terms,
    data_file: FileId,
    uuid: Uuid,
    new_positions: &[u64],
) -> Outcome
    requires { DeleteLent checked snapshots.old data_files.now delete_files.old positions.old scheduled.now counts }
    ensures { (l : DeleteLent checked snapshots.old data_files.now delete_files.old positions.old
        scheduled.now counts) (area : List ℕ)
        → Promise (perform (commit_at terms (delete data_file.0 uuid new_positions.now)) l.words counts area) result
        (delete_leaves l.words snapshots.new delete_files.new positions.new) area }
{
    if let Err(refusal) = refuse_delete(
        checked,
        snapshots,
        data_files,
        delete_files,
        positions,
        scheduled,
        counts,
        terms,
        data_file,
        uuid,
        new_positions,
    ) {
        let number = refusal.number();
        let place = refused_place(
            number,
            snapshots,
            delete_files,
            positions,
            counts,
            data_file,
            new_positions,
        );
        return Outcome {
            place,
            ..Outcome::refused(refusal, counts)
        };
    }
    let count = write_delete(
        snapshots,
        data_files,
        delete_files,
        positions,
        counts,
        terms,
        data_file,
        uuid,
        new_positions,
    );
    let added = delete_adds(count);
    let after = counts_after(counts, added);
    Outcome::accepted(0, after)
}

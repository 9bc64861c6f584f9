ghost use Rattle.std.specs.Prelude.{◌≡◌, true, ◌+◌, length};
ghost use Rattle.layout.specs.Words.{Words, load, store, fits};
ghost use Rattle.ducklake.specs.Commits.{delete};
ghost use Rattle.ducklake.specs.Calls.{commit_at, effect};
ghost use Rattle.row_deletion.specs.Deleted.{deleted_in};
ghost use Rattle.row_deletion.specs.Lent.{delete_leaves};
ghost use Rattle.row_deletion.specs.DeleteRoom.{DeleteRoom};

use crate::append::append_delete_file;
use crate::deleted::deleted_part;
use crate::file::data_file_of_id;
use crate::merge::merge_positions;
use commits::append::append_snapshot;
use commits::end::end_delete_file;
use layout::number::FileId;
use layout::outcome::{Counts, Terms};
use layout::record::{DELETED_FROM_TABLE, Uuid};
use lookup::find::latest_snapshot;

// 'Delete' in the runs that it changes: the new snapshot, the old delete file of the data file ended there, the new one, and its positions. Given is how
// many those are.
pub fn write_delete(
    snapshots: &mut [u64],
    data_files: &[u64],
    delete_files: &mut [u64],
    positions: &mut [u64],
    counts: Counts,
    terms: Terms,
    data_file: FileId,
    uuid: Uuid,
    new_positions: &[u64],
) -> usize
    requires { DeleteRoom snapshots.old data_files.now delete_files.old positions.old counts data_file.0 new_positions.now }
    ensures { (result ≡ length (deleted_in snapshots.old delete_files.old positions.old counts data_file.0)
        + length new_positions.now)
        × ((w : Words) → fits w counts ≡ true → w.snapshots ≡ snapshots.old → w.data_files ≡ data_files.now
        → w.delete_files ≡ delete_files.old → w.positions ≡ positions.old
        → delete_leaves w snapshots.new delete_files.new positions.new
        ≡ store w counts (effect (load w counts) (commit_at terms (delete data_file.0 uuid new_positions.now)))) }
{
    let latest = latest_snapshot(snapshots, counts.snapshots);
    let id = latest.next_file_id;
    let file = data_file_of_id(data_files, counts.data_files, data_file);
    let table = file.table;
    let n = counts.delete_files;
    let old = deleted_part(delete_files, n, data_file, latest.id);
    let count = old.count + new_positions.len();
    let begin = append_snapshot(
        snapshots,
        counts.snapshots,
        terms.time,
        DELETED_FROM_TABLE,
        table,
        0,
        1,
    );
    end_delete_file(delete_files, n, data_file, begin);
    append_delete_file(
        delete_files,
        n,
        id,
        begin,
        table,
        data_file,
        count as u64,
        uuid,
    );
    merge_positions(
        positions,
        old.start,
        old.count,
        counts.positions,
        new_positions,
    );
    count
}

ghost use Rattle.std.specs.Prelude.{◌≡◌, ◌&&◌, List, ℕ, ◌*◌, ◌≤◌, eqb, length};
ghost use Rattle.lists.specs.Lists.{place};
ghost use Rattle.layout.specs.Fields.{delete_file_size};
ghost use Rattle.layout.specs.Words.{delete_files_in};
ghost use Rattle.ducklake.specs.Liveness.{live};

use crate::life::{is_live, life_at};
use layout::number::{FileId, SnapshotId};
use layout::record::DeleteFileRecord;
use records::delete_file::delete_file_data_file;

// The place of the delete file that a data file has at s: of the first one, and sound tables have no other.
pub fn find_live_delete_file(
    delete_files: &[u64],
    n: usize,
    data_file: FileId,
    s: SnapshotId,
) -> Option<usize>
    requires { delete_file_size * n ≤ length delete_files.now }
    ensures { (positions : List ℕ)
        → result ≡ place (λ d. eqb d.body.data_file data_file.0 && live s.0 d) 0 (delete_files_in delete_files.now positions n) }
{
    for i in 0..n {
        let file = delete_file_data_file(delete_files, i);
        let l = life_at(
            delete_files,
            DeleteFileRecord::SIZE,
            DeleteFileRecord::BEGIN,
            i,
        );
        let live = is_live(l, s);
        if (file == data_file) & live {
            return Some(i);
        }
    }
    None
}

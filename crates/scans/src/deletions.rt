ghost use Rattle.std.specs.Prelude.{◌≡◌, ◌≤◌, length};
ghost use Rattle.layout.specs.Fields.{data_file_size, data_file_id_word};
ghost use Rattle.lookup.specs.Order.{DataFilesById, place_of};
ghost use Rattle.scans.specs.Deletions.{set_at, DeleteFilesSought, DeleteFilesFound};

use layout::number::{FileId, SnapshotId, TABLE_LIMIT};
use layout::record::{DataFileRecord, DeleteFileRecord};
use lookup::find::find_data_file_near;
use lookup::life::{is_live, life_at};
use records::delete_file::delete_file_data_file;
use runs::fields::Fields;
use runs::hints::fill_hints;

// Four hints for each place of a full table.
pub const HINTS: usize = 4 * TABLE_LIMIT;

// The number x at the place of the data file of that id: most often it is `near`.
fn set_at_data_file(
    data_files: &[u64],
    n: usize,
    id: FileId,
    near: usize,
    numbers: &mut [usize],
    x: usize,
)
    requires { DataFilesById data_files.now n × (n ≤ length numbers.old) }
    ensures { numbers.new ≡ set_at (place_of data_file_size data_file_id_word data_files.now n id.0) numbers.old x }
{
    if let Some(k) = find_data_file_near(data_files, n, id, near) {
        numbers[k] = x;
    }
}

// For each data file the place, counted from 1, of its delete file that is live at s, or 0: from the last delete file to the first, so that the
// first one of a data file stays.
// Stays: no Option in the array, since memory is fixed, and an Option<usize> for each place of a full table takes twice as much.
pub fn find_live_delete_files(
    data_files: &[u64],
    n: usize,
    delete_files: &[u64],
    m: usize,
    s: SnapshotId,
    places: &mut [usize],
)
    requires { DeleteFilesSought data_files.now n delete_files.now m places.old }
    ensures { DeleteFilesFound data_files.now n delete_files.now m s.0 places.new }
{
    let mut hints = [0u16; HINTS];
    let ids = Fields {
        words: data_files,
        size: DataFileRecord::SIZE,
        at: DataFileRecord::ID,
        n,
    };
    let scale = fill_hints(ids, &mut hints);
    for j in (0..m).rev() {
        let file = delete_file_data_file(delete_files, j);
        let l = life_at(
            delete_files,
            DeleteFileRecord::SIZE,
            DeleteFileRecord::BEGIN,
            j,
        );
        let live = is_live(l, s);
        if live {
            let near = scale.hint(&hints, file.0);
            set_at_data_file(data_files, n, file, near, places, j + 1);
        }
    }
}

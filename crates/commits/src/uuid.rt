ghost use Rattle.std.specs.Prelude.{◌≡◌, not, ◌&&◌, ◌+◌, ◌*◌, ◌≤◌, ◌<◌, eqb, length};
ghost use Rattle.lists.specs.Lists.{all};
ghost use Rattle.lists.specs.Runs.{pairs};
ghost use Rattle.layout.specs.Words.{Words, load};
ghost use Rattle.ducklake.specs.Calls.{uuid_free};
ghost use Rattle.commits.specs.LentRecords.{FilesLent};

use layout::outcome::Counts;
use layout::record::{DataFileRecord, DeleteFileRecord, ScheduledRecord, Uuid};
use runs::fields::field_at;

// Whether none of n records of `size` words has the UUID in its word `word` and the next.
fn uuid_is_nowhere(w: &[u64], size: usize, word: usize, n: usize, uuid: Uuid) -> bool
    requires { (size * n ≤ length w.now) × (word + 1 < size) }
    ensures { result ≡ all (λ p. not (eqb uuid.high p.0 && eqb uuid.low p.1)) (pairs size word (word + 1) w.now n) }
{
    for i in 0..n {
        let high = field_at(w, size, word, i);
        let low = field_at(w, size, word + 1, i);
        if uuid == (Uuid { high, low }) {
            return false;
        }
    }
    true
}

// "14 UUID in any data file, delete file or scheduled record": whether a UUID is in none.
pub fn uuid_is_free(
    data_files: &[u64],
    delete_files: &[u64],
    scheduled: &[u64],
    counts: Counts,
    uuid: Uuid,
) -> bool
    requires { FilesLent data_files.now delete_files.now scheduled.now counts }
    ensures { (w : Words) → w.data_files ≡ data_files.now → w.delete_files ≡ delete_files.now
        → w.scheduled ≡ scheduled.now → result ≡ uuid_free (load w counts) uuid }
{
    let a = uuid_is_nowhere(
        data_files,
        DataFileRecord::SIZE,
        DataFileRecord::UUID_HIGH,
        counts.data_files,
        uuid,
    );
    let b = uuid_is_nowhere(
        delete_files,
        DeleteFileRecord::SIZE,
        DeleteFileRecord::UUID_HIGH,
        counts.delete_files,
        uuid,
    );
    let c = uuid_is_nowhere(
        scheduled,
        ScheduledRecord::SIZE,
        ScheduledRecord::UUID_HIGH,
        counts.scheduled,
        uuid,
    );
    a & (b & c)
}

ghost use Rattle.std.specs.Prelude.{◌≡◌, Bool, not, ◌||◌, List, ℕ, ◌*◌, ◌≤◌, eqb, length};
ghost use Rattle.lists.specs.Lists.{all};
ghost use Rattle.lists.specs.Pieces.{flagged, Flags};
ghost use Rattle.layout.specs.Fields.{delete_file_size};
ghost use Rattle.layout.specs.Words.{Words, load, data_file_at, data_files_in, delete_files_in};
ghost use Rattle.lookup.specs.Order.{DataFilesById};
ghost use Rattle.chaining.specs.Chained.{is_open, has_open_deletes, is_chained, ChainCheckable};

use layout::number::{FileId, SnapshotId, TABLE_LIMIT};
use layout::outcome::Counts;
use layout::record::DataFileRecord;
use lookup::find::find_data_file;
use lookup::life::life_at;
use records::delete_file::{delete_file_data_file, delete_file_end};
use runs::flags::{is_flagged, set_flag};

// Flags, a byte for each data file: the flag of the data file of an id is set, if it is on record.
fn mark_data_file(data_files: &[u64], n: usize, id: FileId, flags: &mut [u8])
    requires { DataFilesById data_files.now n × (n ≤ length flags.old) }
    ensures { Flags (λ j. flagged flags.old j || eqb id.0 (data_file_at data_files.now j).id) n flags.new }
{
    let found = find_data_file(data_files, n, id);
    if let Some(j) = found {
        set_flag(flags, j, true);
    }
}

// The flags of the data files that have an open delete file are set.
fn mark_data_files(data_files: &[u64], n: usize, delete_files: &[u64], m: usize, flags: &mut [u8])
    requires { DataFilesById data_files.now n × (delete_file_size * m ≤ length delete_files.now) × (n ≤ length flags.old) }
    ensures { (p : List ℕ)
        → Flags (λ j. flagged flags.old j
        || has_open_deletes (delete_files_in delete_files.now p m) (data_file_at data_files.now j).id) n flags.new }
{
    for i in 0..m {
        let file = delete_file_data_file(delete_files, i);
        let end = delete_file_end(delete_files, i);
        if end == SnapshotId::ABSENT {
            mark_data_file(data_files, n, file, flags);
        }
    }
}

// Whether the data file of an id, if it is open, has its flag set; for whatever q the flags tell of a data file's id.
fn is_covered(data_files: &[u64], n: usize, id: FileId, flags: &[u8]) -> bool
    requires { DataFilesById data_files.now n × (n ≤ length flags.now) }
    ensures { (q : ℕ → Bool)
        → Flags (λ j. q (data_file_at data_files.now j).id) n flags.now
        → result ≡ (not (is_open (data_files_in data_files.now n) id.0) || q id.0) }
{
    let found = find_data_file(data_files, n, id);
    match found {
        Some(j) => {
            let l = life_at(data_files, DataFileRecord::SIZE, DataFileRecord::BEGIN, j);
            let marked = is_flagged(flags, j);
            (l.end != SnapshotId::ABSENT) | marked
        }
        None => true,
    }
}

// The same of the data file of each of m delete files.
fn all_covered(data_files: &[u64], n: usize, delete_files: &[u64], m: usize, flags: &[u8]) -> bool
    requires { DataFilesById data_files.now n × (delete_file_size * m ≤ length delete_files.now) × (n ≤ length flags.now) }
    ensures { (p : List ℕ) (q : ℕ → Bool)
        → Flags (λ j. q (data_file_at data_files.now j).id) n flags.now
        → result ≡ all (λ d. not (is_open (data_files_in data_files.now n) d.body.data_file) || q d.body.data_file)
        (delete_files_in delete_files.now p m) }
{
    for i in 0..m {
        let file = delete_file_data_file(delete_files, i);
        let ok = is_covered(data_files, n, file, flags);
        if !ok {
            return false;
        }
    }
    true
}

// Whether each data file that is open and has a delete file on record has an open one.
pub fn is_chained(data_files: &[u64], delete_files: &[u64], counts: Counts) -> bool
    requires { ChainCheckable data_files.now delete_files.now counts }
    ensures { (w : Words)
        → w.data_files ≡ data_files.now
        → w.delete_files ≡ delete_files.now
        → result ≡ is_chained (load w counts) }
{
    let n = counts.data_files;
    let m = counts.delete_files;
    let mut flags = [0u8; TABLE_LIMIT];
    mark_data_files(data_files, n, delete_files, m, &mut flags);
    all_covered(data_files, n, delete_files, m, &flags)
}

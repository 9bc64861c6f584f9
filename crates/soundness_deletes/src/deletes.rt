ghost use Rattle.std.specs.Prelude.{◌≡◌, true, ◌*◌, ◌<◌, ◌≤◌, ltb, length};
ghost use Rattle.lists.specs.Lists.{all, pairwise};
ghost use Rattle.layout.specs.Catalog.{delete_file_of};
ghost use Rattle.layout.specs.Words.{Words, load, data_files_in};
ghost use Rattle.ducklake.specs.Soundness.{succeeded_by, delete_files_apart, positions_sound, deletes_sound};
ghost use Rattle.lookup.specs.Order.{DataFilesById};
ghost use Rattle.lookup.specs.DeleteFiles.{file_at, files_of};
ghost use Rattle.soundness_deletes.specs.Deletes.{begins_before_end, positions_ascend, DeletesCheckable, DeletesKeyed};

use layout::outcome::Counts;
use layout::record::DeleteFileRecord;
use lookup::find::find_data_file_near;
use lookup::life::life_at;
use lookup::positions::DeleteFiles;
use records::data_file::data_file_record_count;
use records::delete_file::delete_file_data_file;
use runs::hints::place_at;
use runs::subset::is_subset;
use runs::words::words_ascend;
use sorting::colliding::{hash_fields, keep_colliding};
use sorting::distinct::places_apart;
use sorting::keys::{Keys, put_words};
use sorting::sort::number;

// "positions ascend strictly below record_count; delete_count is 1 or more", of a delete file and its positions: where they
// ascend, the last is the highest. Its data file most often is at `near`.
fn positions_sound(
    data_files: &[u64],
    n: usize,
    d: DeleteFileRecord,
    own: &[u64],
    near: usize,
) -> bool
    requires { DataFilesById data_files.now n }
    ensures { result ≡ positions_sound (data_files_in data_files.now n) (delete_file_of d own.now) }
{
    if own.len() == 0 {
        return false;
    }
    let found = find_data_file_near(data_files, n, d.data_file, near);
    match found {
        Some(j) => {
            let rows = data_file_record_count(data_files, j);
            let ascending = words_ascend(own);
            ascending & (own[own.len() - 1] < rows)
        }
        None => false,
    }
}

fn all_positions_sound(data_files: &[u64], n: usize, deletes: DeleteFiles, places: &[u16]) -> bool
    requires { DataFilesById data_files.now n }
    ensures { result ≡ all (positions_sound (data_files_in data_files.now n)) (files_of deletes.entry) }
{
    for i in 0..deletes.n {
        let d = deletes.at(i);
        let own = deletes.positions_of(i);
        if !positions_sound(data_files, n, d, own, place_at(places, i)) {
            return false;
        }
    }
    true
}

// Delete files that can be compared: positions that ascend, and lives that are not empty.
#[derive(Clone, Copy)]
struct Comparable<'a> {
    files: DeleteFiles<'a>,
    ghost ascend: { all positions_ascend (files_of files) ≡ true },
    ghost lives: { all begins_before_end (files_of files) ≡ true },
}

impl<'a> Comparable<'a> {
    // Whether the delete file i ends before the delete file j begins, and j holds every position of i.
    fn succeeded(self, i: usize, j: usize) -> bool
        requires { (i < self.files.n) × (j < self.files.n) }
        ensures { result ≡ succeeded_by (file_at self.entry.files i) (file_at self.entry.files j) }
    {
        let size = DeleteFileRecord::SIZE;
        let begin = DeleteFileRecord::BEGIN;
        let before = life_at(self.files.records, size, begin, i);
        let after = life_at(self.files.records, size, begin, j);
        if after.begin < before.end {
            return false;
        }
        let earlier = self.files.positions_of(i);
        let later = self.files.positions_of(j);
        is_subset(earlier, later)
    }

    // Whether two delete files are apart, in any order.
    fn apart(self, i: usize, j: usize) -> bool
        requires { (i < self.files.n) × (j < self.files.n) }
        ensures { result ≡ delete_files_apart (file_at self.entry.files i) (file_at self.entry.files j) }
    {
        let a = delete_file_data_file(self.files.records, i);
        let b = delete_file_data_file(self.files.records, j);
        if a != b {
            return true;
        }
        self.succeeded(i, j) || self.succeeded(j, i)
    }

    // Keys of the delete files at those places: the data file, the begin.
    fn put_keys(self, places: &[usize], keys: &mut [u64])
        requires { (2 * self.files.n ≤ length keys.old) × (all (λ p. ltb p self.files.n) places.now ≡ true) }
        ensures { DeletesKeyed self.entry.files keys.new places.now }
    {
        let size = DeleteFileRecord::SIZE;
        let data_file = DeleteFileRecord::DATA_FILE;
        let begin = DeleteFileRecord::BEGIN;
        put_words(self.files.records, size, data_file, places, keys, 2, 0);
        put_words(self.files.records, size, begin, places, keys, 2, 1);
    }

    // "two delete files of one data file have no common live number; the later holds every position of the earlier": those whose data file no other
    // has, by its last digits, need no keys; of the others, by data file and begin, those that follow each other decide. keys, w and v are scratch.
    fn all_apart(self, keys: &mut [u64], w: &mut [usize], v: &mut [usize]) -> bool
        requires { (2 * self.files.n ≤ length keys.old) × (length w.old ≡ self.files.n) × (length v.old ≡ self.files.n) }
        ensures { result ≡ pairwise delete_files_apart (files_of self.entry.files) }
    {
        number(w);
        hash_fields(
            self.files.records,
            DeleteFileRecord::SIZE,
            DeleteFileRecord::DATA_FILE,
            self.files.n,
            v,
            0,
        );
        let r = keep_colliding(v, w);
        self.put_keys(&w[..r], keys);
        let put = Keys {
            words: keys,
            size: 2,
        };
        places_apart(put, 1, &mut w[..r], &mut v[..r], |i, j| self.apart(i, j))
    }
}

// Of each delete file there is the place where its data file most likely is; keys, w, v and starts are scratch.
pub fn deletes_sound(
    data_files: &[u64],
    delete_files: &[u64],
    positions: &[u64],
    counts: Counts,
    places: &[u16],
    keys: &mut [u64],
    w: &mut [usize],
    v: &mut [usize],
    starts: &mut [usize],
) -> bool
    requires { DeletesCheckable data_files.now delete_files.now positions.now counts × (2 * counts.delete_files ≤ length keys.old)
        × (counts.delete_files ≤ length w.old) × (counts.delete_files ≤ length v.old) × (counts.delete_files ≤ length starts.old) }
    ensures { (w : Words) → w.data_files ≡ data_files.now → w.delete_files ≡ delete_files.now
        → w.positions ≡ positions.now → result ≡ deletes_sound (load w counts) }
{
    let n = counts.delete_files;
    let files = DeleteFiles::located(delete_files, positions, n, starts);
    if !all_positions_sound(data_files, counts.data_files, files, places) {
        return false;
    }
    Comparable { files }.all_apart(keys, &mut w[0..n], &mut v[0..n])
}

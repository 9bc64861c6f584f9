ghost use Rattle.std.specs.Prelude.{◌≡◌, true, not, List, map, ℕ, ◌*◌, ◌≤◌, ◌<◌, ltb, length};
ghost use Rattle.lists.specs.Lists.{range, pairwise, all};
ghost use Rattle.sorting.specs.Colliding.{hash_limit};
ghost use Rattle.sorting.specs.Keys.{same_words, Put};
ghost use Rattle.soundness_unique.specs.Files.{ids_distinct, uuids_distinct, files_differ, file_count};
ghost use Rattle.soundness_unique.specs.Tables.{TablesLent, word_in, key_in, id_hash_in, uuid_hash_in, ids_in, uuids_in};
ghost use Rattle.soundness_unique.specs.Naming.{KeysPut};
ghost use Rattle.soundness_unique.specs.Comparable.{WordsInside, KeyWordsInside, FilesPuttable, FileKeysPuttable, FilesSortable};

use crate::left::left_places;
use layout::outcome::Counts;
use layout::record::{DataFileRecord, DeleteFileRecord, ScheduledRecord};
use runs::fields::field_at;
use sorting::colliding::{hash_fields, hash_pairs};
use sorting::distinct::places_differ;
use sorting::keys::Keys;

// Ids and UUIDs of files are in no order over the three tables: they are hashed where they stand, and only those that share a hash become keys.

// The tables of files.
#[derive(Clone, Copy)]
pub struct FileTables<'a> {
    pub data_files: &'a [u64],
    pub delete_files: &'a [u64],
    pub scheduled: &'a [u64],
    pub counts: Counts,
}

// A word of a record of each table.
#[derive(Clone, Copy)]
pub struct FileWords {
    pub data_file: usize,
    pub delete_file: usize,
    pub scheduled: usize,
}

// The word of the file at place p: of data files, then of delete files, then of scheduled files.
fn file_word(files: FileTables, words: FileWords, p: usize) -> u64
    requires { TablesLent files × WordsInside words × (p < file_count files.counts) }
    ensures { result ≡ word_in files.entry words p }
{
    let n = files.counts.data_files;
    let m = files.counts.delete_files;
    if p < n {
        return field_at(files.data_files, DataFileRecord::SIZE, words.data_file, p);
    }
    if p < n + m {
        return field_at(
            files.delete_files,
            DeleteFileRecord::SIZE,
            words.delete_file,
            p - n,
        );
    }
    field_at(
        files.scheduled,
        ScheduledRecord::SIZE,
        words.scheduled,
        p - n - m,
    )
}

// The words of the files at those places, as the word `at` of the keys at the same places.
fn put_file_words(
    files: FileTables,
    words: FileWords,
    places: &[usize],
    keys: &mut [u64],
    size: usize,
    at: usize,
)
    requires { TablesLent files × FilesPuttable files.counts words size at places.now keys.old }
    ensures { (length keys.new ≡ length keys.old)
        × Put (word_in files.entry words) size at places.now keys.old keys.new }
{
    for &p in places {
        keys[size * p + at] = file_word(files, words, p);
    }
}

// The keys of the files at those places: as many words of each as a key has, from the word `words` on.
fn put_file_keys(
    files: FileTables,
    words: FileWords,
    size: usize,
    places: &[usize],
    keys: &mut [u64],
)
    requires { TablesLent files × FileKeysPuttable files.counts words size places.now keys.old }
    ensures { (length keys.new ≡ length keys.old)
        × KeysPut (key_in files.entry words size) size places.now keys.new }
{
    for at in 0..size {
        let word = FileWords {
            data_file: words.data_file + at,
            delete_file: words.delete_file + at,
            scheduled: words.scheduled + at,
        };
        put_file_words(files, word, places, keys, size, at);
    }
}

// The hashes of the ids of all files. Stays: one function with the next, which took the hash as a closure, is no plainer: its contract is longer.
fn hash_file_ids(files: FileTables, hashes: &mut [usize])
    requires { TablesLent files × (length hashes.old ≡ file_count files.counts) }
    ensures { hashes.new ≡ map (id_hash_in files.entry)
        (range 0 (file_count files.entry.counts)) }
{
    let n = files.counts.data_files;
    let m = files.counts.delete_files;
    let k = files.counts.scheduled;
    hash_fields(
        files.data_files,
        DataFileRecord::SIZE,
        DataFileRecord::ID,
        n,
        hashes,
        0,
    );
    hash_fields(
        files.delete_files,
        DeleteFileRecord::SIZE,
        DeleteFileRecord::ID,
        m,
        hashes,
        n,
    );
    hash_fields(
        files.scheduled,
        ScheduledRecord::SIZE,
        ScheduledRecord::FILE,
        k,
        hashes,
        n + m,
    );
}

// And of their UUIDs.
fn hash_file_uuids(files: FileTables, hashes: &mut [usize])
    requires { TablesLent files × (length hashes.old ≡ file_count files.counts) }
    ensures { hashes.new ≡ map (uuid_hash_in files.entry)
        (range 0 (file_count files.entry.counts)) }
{
    let n = files.counts.data_files;
    let m = files.counts.delete_files;
    let k = files.counts.scheduled;
    hash_pairs(
        files.data_files,
        DataFileRecord::SIZE,
        DataFileRecord::UUID_HIGH,
        DataFileRecord::UUID_LOW,
        n,
        hashes,
        0,
    );
    hash_pairs(
        files.delete_files,
        DeleteFileRecord::SIZE,
        DeleteFileRecord::UUID_HIGH,
        DeleteFileRecord::UUID_LOW,
        m,
        hashes,
        n,
    );
    hash_pairs(
        files.scheduled,
        ScheduledRecord::SIZE,
        ScheduledRecord::UUID_HIGH,
        ScheduledRecord::UUID_LOW,
        k,
        hashes,
        n + m,
    );
}

// Whether no two files have one key, where those that do have one hash; v has the hashes of all.
fn file_keys_differ(
    files: FileTables,
    words: FileWords,
    size: usize,
    keys: &mut [u64],
    w: &mut [usize],
    v: &mut [usize],
) -> bool
    requires { TablesLent files × KeyWordsInside words size × (size * file_count files.counts ≤ length keys.old)
        × (length w.old ≡ file_count files.counts) × (length v.old ≡ file_count files.counts) × (all (λ h. ltb h hash_limit) v.old ≡ true) }
    ensures { (hash : ℕ → ℕ) → v.old ≡ map hash (range 0 (file_count files.entry.counts))
        → (let key = key_in files.entry words size in
        ((i j : ℕ) → same_words (key i) (key j) ≡ true → hash i ≡ hash j)
        → result ≡ pairwise (λ a b. not (same_words a b)) (map key (range 0 (file_count files.entry.counts)))) }
{
    let r = left_places(v, w);
    put_file_keys(files, words, size, &w[..r], keys);
    let put = Keys { words: keys, size };
    places_differ(put, &mut w[..r], &mut v[..r])
}

// Whether no id is twice in files, scheduled ones too.
// Stays: its twin has other words, other hashes and another promise.
fn file_ids_differ(files: FileTables, keys: &mut [u64], w: &mut [usize], v: &mut [usize]) -> bool
    requires { TablesLent files × FilesSortable files.counts keys.old w.old v.old }
    ensures { (positions : List ℕ) → result ≡ ids_distinct (ids_in files.entry positions) }
{
    let ids = FileWords {
        data_file: DataFileRecord::ID,
        delete_file: DeleteFileRecord::ID,
        scheduled: ScheduledRecord::FILE,
    };
    hash_file_ids(files, v);
    file_keys_differ(files, ids, 1, keys, w, v)
}

// Whether no UUID is twice in files, scheduled ones too.
fn file_uuids_differ(files: FileTables, keys: &mut [u64], w: &mut [usize], v: &mut [usize]) -> bool
    requires { TablesLent files × FilesSortable files.counts keys.old w.old v.old }
    ensures { (positions : List ℕ) → result ≡ uuids_distinct (uuids_in files.entry positions) }
{
    let uuids = FileWords {
        data_file: DataFileRecord::UUID_HIGH,
        delete_file: DeleteFileRecord::UUID_HIGH,
        scheduled: ScheduledRecord::UUID_HIGH,
    };
    hash_file_uuids(files, v);
    file_keys_differ(files, uuids, 2, keys, w, v)
}

pub fn files_differ(files: FileTables, keys: &mut [u64], w: &mut [usize], v: &mut [usize]) -> bool
    requires { TablesLent files × FilesSortable files.counts keys.old w.old v.old }
    ensures { (positions : List ℕ)
        → result ≡ files_differ files.entry.data_files.now files.entry.delete_files.now files.entry.scheduled.now positions files.entry.counts }
{
    let a = file_ids_differ(files, keys, w, v);
    let b = file_uuids_differ(files, keys, w, v);
    a & b
}

ghost use Rattle.std.specs.Prelude.{◌≡◌, List, ℕ, ◌+◌, ◌<◌, true, ltb};
ghost use Rattle.lists.specs.Lists.{chained};
ghost use Rattle.lists.specs.Runs.{fields};
ghost use Rattle.runs.specs.Fields.{values};
ghost use Rattle.layout.specs.Words.{snapshots_in, schemas_in, tables_in, data_files_in};
ghost use Rattle.ducklake.specs.Liveness.{is_live, live_at_some, retained};
ghost use Rattle.lookup.specs.Order.{ById, SnapshotsById, SchemasById, TablesById, DataFilesById};
ghost use Rattle.lookup.specs.Versions.{with_life, versions_in, live_among};

use crate::find::find_snapshot;
use crate::life::{Life, is_live, life_at};
use layout::number::{CatalogId, FileId, SnapshotId};
use layout::record::{DataFileRecord, SchemaRecord, SnapshotRecord, TableRecord};
use runs::fields::Fields;

// Whether a snapshot is retained.
pub fn is_retained(snapshots: &[u64], n: usize, s: SnapshotId) -> bool
    requires { SnapshotsById snapshots.now n }
    ensures { result ≡ retained (snapshots_in snapshots.now n) s.0 }
{
    find_snapshot(snapshots, n, s).is_some()
}

// Whether a record of that life is live at some of the numbers, which ascend: most often at the last one; else at the first one from its begin on, which is
// sought from the place `near` on, or at none.
fn is_live_among_near(numbers: Fields, l: Life, near: usize) -> bool
    requires { chained ltb (values numbers) ≡ true }
    ensures { result ≡ live_among (values numbers.entry) (with_life l) }
{
    if 0 < numbers.n {
        let last = numbers.get(numbers.n - 1);
        let now = is_live(l, SnapshotId(last));
        if now {
            return true;
        }
    }
    let i = numbers.count_below(l.begin.0, near);
    if numbers.n <= i {
        return false;
    }
    let s = numbers.get(i);
    is_live(l, SnapshotId(s))
}

// The same, of n records of `size` words with the numbers in their word `word`.
pub fn is_live_among(w: &[u64], size: usize, word: usize, n: usize, l: Life) -> bool
    requires { ById size word w.now n }
    ensures { result ≡ live_among (fields size word w.now n) (with_life l) }
{
    let numbers = Fields {
        words: w,
        size,
        at: word,
        n,
    };
    is_live_among_near(numbers, l, numbers.interpolate(l.begin.0))
}

// Whether a record of that life is live at some retained snapshot. The one at its begin most often is at `near`.
pub fn is_live_at_some(snapshots: &[u64], n: usize, l: Life, near: usize) -> bool
    requires { SnapshotsById snapshots.now n }
    ensures { result ≡ live_at_some (snapshots_in snapshots.now n) (with_life l) }
{
    let ids = Fields {
        words: snapshots,
        size: SnapshotRecord::SIZE,
        at: SnapshotRecord::ID,
        n,
    };
    is_live_among_near(ids, l, near)
}

// Whether an id is that of a record live at s, where ids ascend: records with a life from the word `life` on.
fn is_live_id(ids: Fields, life: usize, id: u64, s: SnapshotId) -> bool
    requires { (chained ltb (values ids) ≡ true) × (life + 1 < ids.size) }
    ensures { result ≡ is_live (versions_in ids.entry.size ids.entry.at life ids.entry.words.now ids.entry.n) s.0 id }
{
    match ids.find(id) {
        Some(i) => {
            let l = life_at(ids.words, ids.size, life, i);
            is_live(l, s)
        }
        None => false,
    }
}

// Stays: `is_live_id` is the one function of these three; each names a table, its words and the type of its id.
pub fn schema_is_live(schemas: &[u64], n: usize, id: CatalogId, s: SnapshotId) -> bool
    requires { SchemasById schemas.now n }
    ensures { (names : List ℕ) → result ≡ is_live (schemas_in schemas.now names n) s.0 id.0 }
{
    let ids = Fields {
        words: schemas,
        size: SchemaRecord::SIZE,
        at: SchemaRecord::ID,
        n,
    };
    is_live_id(ids, SchemaRecord::BEGIN, id.0, s)
}

pub fn table_is_live(tables: &[u64], n: usize, id: CatalogId, s: SnapshotId) -> bool
    requires { TablesById tables.now n }
    ensures { (names : List ℕ) → result ≡ is_live (tables_in tables.now names n) s.0 id.0 }
{
    let ids = Fields {
        words: tables,
        size: TableRecord::SIZE,
        at: TableRecord::ID,
        n,
    };
    is_live_id(ids, TableRecord::BEGIN, id.0, s)
}

pub fn data_file_is_live(data_files: &[u64], n: usize, id: FileId, s: SnapshotId) -> bool
    requires { DataFilesById data_files.now n }
    ensures { result ≡ is_live (data_files_in data_files.now n) s.0 id.0 }
{
    let ids = Fields {
        words: data_files,
        size: DataFileRecord::SIZE,
        at: DataFileRecord::ID,
        n,
    };
    is_live_id(ids, DataFileRecord::BEGIN, id.0, s)
}

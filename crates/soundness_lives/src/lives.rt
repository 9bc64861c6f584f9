ghost use Rattle.std.specs.Prelude.{◌≡◌, ◌+◌, ◌<◌};
ghost use Rattle.lists.specs.Lists.{all};
ghost use Rattle.layout.specs.Words.{Words, load, snapshots_in};
ghost use Rattle.ducklake.specs.Soundness.{life_sound, lives_sound};
ghost use Rattle.lookup.specs.Order.{SnapshotsById};
ghost use Rattle.lookup.specs.Versions.{with_life};
ghost use Rattle.soundness_lives.specs.Lent.{lives_in, LivesLent};

use layout::number::SnapshotId;
use layout::outcome::Counts;
use layout::record::{ColumnRecord, DataFileRecord, DeleteFileRecord, SchemaRecord, TableRecord};
use lookup::find::latest_snapshot;
use lookup::life::{Life, life_at};
use lookup::live::is_live_at_some;
use runs::fields::Fields;
use runs::hints::Scale;

// "each begin and each end that isn't ABSENT is at most the latest snapshot id; begin < end; every record is live at some retained snapshot"
fn life_sound(snapshots: &[u64], n: usize, l: Life, near: usize) -> bool
    requires { SnapshotsById snapshots.now n × (0 < n) }
    ensures { result ≡ life_sound (snapshots_in snapshots.now n) (with_life l) }
{
    let latest = latest_snapshot(snapshots, n);
    let some = is_live_at_some(snapshots, n, l, near);
    (l.begin <= latest.id)
        & ((l.end == SnapshotId::ABSENT) | (l.end <= latest.id))
        & (l.begin < l.end)
        & some
}

// The same of each of the records of a table: their lives are their word `at` and the next.
// One that began by the latest snapshot and has not ended is live at that one, and needs no search.
fn all_lives_sound(snapshots: &[u64], n: usize, scale: Scale, hints: &[u16], lives: Fields) -> bool
    requires { SnapshotsById snapshots.now n × (0 < n) × (lives.at + 1 < lives.size) }
    ensures { result ≡ all (life_sound (snapshots_in snapshots.now n)) (lives_in lives.entry.size lives.entry.at lives.entry.words.now lives.entry.n) }
{
    let last = latest_snapshot(snapshots, n).id;
    for i in 0..lives.n {
        let l = life_at(lives.words, lives.size, lives.at, i);
        let open = (l.begin <= last) & (l.end == SnapshotId::ABSENT) & (last < l.end);
        if !open && !life_sound(snapshots, n, l, scale.hint(hints, l.begin.0)) {
            return false;
        }
    }
    true
}

// The same of every record that has a life. The hints tell where snapshots may be.
pub fn lives_sound(
    snapshots: &[u64],
    schemas: &[u64],
    tables: &[u64],
    columns: &[u64],
    data_files: &[u64],
    delete_files: &[u64],
    counts: Counts,
    scale: Scale,
    hints: &[u16],
) -> bool
    requires { LivesLent snapshots.now schemas.now tables.now columns.now data_files.now delete_files.now counts }
    ensures { (w : Words)
        → w.snapshots ≡ snapshots.now
        → w.schemas ≡ schemas.now
        → w.tables ≡ tables.now
        → w.columns ≡ columns.now
        → w.data_files ≡ data_files.now
        → w.delete_files ≡ delete_files.now
        → result ≡ lives_sound (load w counts) }
{
    let n = counts.snapshots;
    let of_schemas = Fields {
        words: schemas,
        size: SchemaRecord::SIZE,
        at: SchemaRecord::BEGIN,
        n: counts.schemas,
    };
    let a = all_lives_sound(snapshots, n, scale, hints, of_schemas);
    let of_tables = Fields {
        words: tables,
        size: TableRecord::SIZE,
        at: TableRecord::BEGIN,
        n: counts.tables,
    };
    let b = all_lives_sound(snapshots, n, scale, hints, of_tables);
    let of_columns = Fields {
        words: columns,
        size: ColumnRecord::SIZE,
        at: ColumnRecord::BEGIN,
        n: counts.columns,
    };
    let c = all_lives_sound(snapshots, n, scale, hints, of_columns);
    let of_data_files = Fields {
        words: data_files,
        size: DataFileRecord::SIZE,
        at: DataFileRecord::BEGIN,
        n: counts.data_files,
    };
    let d = all_lives_sound(snapshots, n, scale, hints, of_data_files);
    let of_delete_files = Fields {
        words: delete_files,
        size: DeleteFileRecord::SIZE,
        at: DeleteFileRecord::BEGIN,
        n: counts.delete_files,
    };
    let e = all_lives_sound(snapshots, n, scale, hints, of_delete_files);
    a & b & c & d & e
}

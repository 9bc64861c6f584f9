ghost use Rattle.std.specs.Prelude.{◌≡◌, ◌+◌, ◌*◌, ◌≤◌, length};
ghost use Rattle.layout.specs.Fields.{snapshot_size};
ghost use Rattle.layout.specs.Words.{snapshot_at, snapshots_in};
ghost use Rattle.ducklake.specs.Kinds.{is_kind};
ghost use Rattle.ducklake.specs.Soundness.{follows, change_sound, snapshots_rise};

use layout::kind::ChangeKind;
use layout::number::CatalogId;
use lookup::find::latest_snapshot;
use records::snapshot::snapshot_at;

// "change kinds are those below"
#[tactic(auto, unfolding(ducklake::specs::Kinds::is_kind, layout::specs::Kinds::kind_of, lists::specs::Lists::any))]
fn is_kind(kind: u64) -> bool
    ensures { result ≡ is_kind kind }
{
    ChangeKind::of(kind).is_some()
}

// Whether the snapshot i + 1 follows the snapshot i: a higher id; time, schema version and next ids not lower.
#[tactic(auto, unfolding(ducklake::specs::Soundness::follows))]
fn next_follows(snapshots: &[u64], i: usize) -> bool
    requires { snapshot_size * (i + 1) + snapshot_size ≤ length snapshots.now }
    ensures { result ≡ follows (snapshot_at snapshots.now i) (snapshot_at snapshots.now (i + 1)) }
{
    let a = snapshot_at(snapshots, i);
    let b = snapshot_at(snapshots, i + 1);
    (a.id < b.id)
        & (a.time <= b.time)
        & (a.schema_version <= b.schema_version)
        & (a.next_catalog_id <= b.next_catalog_id)
        & (a.next_file_id <= b.next_file_id)
}

// Whether the change of the snapshot i is of a known kind, and of a schema or table below the next id.
fn change_sound(snapshots: &[u64], i: usize, next: CatalogId) -> bool
    requires { snapshot_size * i + snapshot_size ≤ length snapshots.now }
    ensures { result ≡ change_sound next.0 (snapshot_at snapshots.now i) }
{
    let s = snapshot_at(snapshots, i);
    let known = is_kind(s.kind);
    known & (s.object < next)
}

// "at least one snapshot; snapshot ids ascend strictly; times, schema versions and next ids never fall; change kinds are those below"
pub fn snapshots_rise(snapshots: &[u64], n: usize) -> bool
    requires { snapshot_size * n ≤ length snapshots.now }
    ensures { result ≡ snapshots_rise (snapshots_in snapshots.now n) }
{
    if n == 0 {
        return false;
    }
    let latest = latest_snapshot(snapshots, n);
    let next = latest.next_catalog_id;
    let a = (0..n - 1).all(|i| next_follows(snapshots, i));
    let b = (0..n).all(|i| change_sound(snapshots, i, next));
    a & b
}

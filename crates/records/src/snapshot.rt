ghost use Rattle.std.specs.Prelude.{◌≡◌, ◌+◌, ◌*◌, ◌≤◌, length};
ghost use Rattle.lists.specs.Runs.{at, overwrite};
ghost use Rattle.layout.specs.Fields.{snapshot_size};
ghost use Rattle.layout.specs.Records.{snapshot_layout, snapshot_words};

use layout::number::{CatalogId, FileId, SnapshotId};
use layout::record::SnapshotRecord;

// A snapshot at the place i.
pub fn snapshot_at(w: &[u64], i: usize) -> SnapshotRecord
    requires { snapshot_size * i + snapshot_size ≤ length w.now }
    ensures { result ≡ at snapshot_layout w.now i }
{
    let k = SnapshotRecord::SIZE * i;
    SnapshotRecord {
        id: SnapshotId(w[k + SnapshotRecord::ID]),
        time: w[k + SnapshotRecord::TIME],
        schema_version: w[k + SnapshotRecord::SCHEMA_VERSION],
        next_catalog_id: CatalogId(w[k + SnapshotRecord::NEXT_CATALOG_ID]),
        next_file_id: FileId(w[k + SnapshotRecord::NEXT_FILE_ID]),
        kind: w[k + SnapshotRecord::KIND],
        object: CatalogId(w[k + SnapshotRecord::OBJECT]),
    }
}

pub fn write_snapshot(w: &mut [u64], i: usize, r: SnapshotRecord)
    requires { snapshot_size * i + snapshot_size ≤ length w.old }
    ensures { w.new ≡ overwrite w.old (snapshot_size * i) (snapshot_words r) }
{
    let k = SnapshotRecord::SIZE * i;
    w[k + SnapshotRecord::ID] = r.id.0;
    w[k + SnapshotRecord::TIME] = r.time;
    w[k + SnapshotRecord::SCHEMA_VERSION] = r.schema_version;
    w[k + SnapshotRecord::NEXT_CATALOG_ID] = r.next_catalog_id.0;
    w[k + SnapshotRecord::NEXT_FILE_ID] = r.next_file_id.0;
    w[k + SnapshotRecord::KIND] = r.kind;
    w[k + SnapshotRecord::OBJECT] = r.object.0;
}

// One field of it.
pub fn snapshot_id(w: &[u64], i: usize) -> SnapshotId
    requires { snapshot_size * i + snapshot_size ≤ length w.now }
    ensures { result ≡ (at snapshot_layout w.now i).id }
{
    SnapshotId(w[SnapshotRecord::SIZE * i + SnapshotRecord::ID])
}

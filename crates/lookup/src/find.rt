ghost use Rattle.std.specs.Prelude.{◌≡◌, ◌*◌, ◌≤◌, ◌<◌, length};
ghost use Rattle.layout.specs.Catalog.{snapshot_of};
ghost use Rattle.layout.specs.Fields.{snapshot_size, snapshot_id_word, schema_size, schema_id_word, table_size, table_id_word, data_file_size, data_file_id_word, delete_file_size, delete_file_id_word};
ghost use Rattle.layout.specs.Words.{snapshots_in};
ghost use Rattle.ducklake.specs.Liveness.{latest_of};
ghost use Rattle.lookup.specs.Order.{SnapshotsById, SnapshotsByTime, SchemasById, TablesById, DataFilesById, DeleteFilesById, place_of};
ghost use Rattle.lookup.specs.Times.{LatestBy};

use layout::number::{CatalogId, FileId, SnapshotId};
use layout::record::{DataFileRecord, DeleteFileRecord, SchemaRecord, SnapshotRecord, TableRecord};
use records::snapshot::snapshot_at;
use runs::fields::Fields;

// The place of the record of an id.
// Stays: each of these names its table's sizes and takes its own type of id, and is one call beside that.
pub fn find_snapshot(snapshots: &[u64], n: usize, id: SnapshotId) -> Option<usize>
    requires { SnapshotsById snapshots.now n }
    ensures { result ≡ place_of snapshot_size snapshot_id_word snapshots.now n id.0 }
{
    let ids = Fields {
        words: snapshots,
        size: SnapshotRecord::SIZE,
        at: SnapshotRecord::ID,
        n,
    };
    ids.find(id.0)
}

pub fn find_schema(schemas: &[u64], n: usize, id: CatalogId) -> Option<usize>
    requires { SchemasById schemas.now n }
    ensures { result ≡ place_of schema_size schema_id_word schemas.now n id.0 }
{
    let ids = Fields {
        words: schemas,
        size: SchemaRecord::SIZE,
        at: SchemaRecord::ID,
        n,
    };
    ids.find(id.0)
}

pub fn find_table(tables: &[u64], n: usize, id: CatalogId) -> Option<usize>
    requires { TablesById tables.now n }
    ensures { result ≡ place_of table_size table_id_word tables.now n id.0 }
{
    let ids = Fields {
        words: tables,
        size: TableRecord::SIZE,
        at: TableRecord::ID,
        n,
    };
    ids.find(id.0)
}

// The same: most often it is at `near`.
// Stays: as above.
pub fn find_table_near(tables: &[u64], n: usize, id: CatalogId, near: usize) -> Option<usize>
    requires { TablesById tables.now n }
    ensures { result ≡ place_of table_size table_id_word tables.now n id.0 }
{
    let ids = Fields {
        words: tables,
        size: TableRecord::SIZE,
        at: TableRecord::ID,
        n,
    };
    ids.find_near(id.0, near)
}

// Stays: as above; an impl of a trait for each table would name the same, and clauses would name its ghost members.
pub fn find_data_file(data_files: &[u64], n: usize, id: FileId) -> Option<usize>
    requires { DataFilesById data_files.now n }
    ensures { result ≡ place_of data_file_size data_file_id_word data_files.now n id.0 }
{
    let ids = Fields {
        words: data_files,
        size: DataFileRecord::SIZE,
        at: DataFileRecord::ID,
        n,
    };
    ids.find(id.0)
}

pub fn find_data_file_near(data_files: &[u64], n: usize, id: FileId, near: usize) -> Option<usize>
    requires { DataFilesById data_files.now n }
    ensures { result ≡ place_of data_file_size data_file_id_word data_files.now n id.0 }
{
    let ids = Fields {
        words: data_files,
        size: DataFileRecord::SIZE,
        at: DataFileRecord::ID,
        n,
    };
    ids.find_near(id.0, near)
}

pub fn find_delete_file(delete_files: &[u64], n: usize, id: FileId) -> Option<usize>
    requires { DeleteFilesById delete_files.now n }
    ensures { result ≡ place_of delete_file_size delete_file_id_word delete_files.now n id.0 }
{
    let ids = Fields {
        words: delete_files,
        size: DeleteFileRecord::SIZE,
        at: DeleteFileRecord::ID,
        n,
    };
    ids.find(id.0)
}

// The latest snapshot: ids ascend, so it is the last.
pub fn latest_snapshot(snapshots: &[u64], n: usize) -> SnapshotRecord
    requires { (snapshot_size * n ≤ length snapshots.now) × (0 < n) }
    ensures { snapshot_of result ≡ latest_of (snapshots_in snapshots.now n) }
{
    snapshot_at(snapshots, n - 1)
}

// The place of the latest snapshot at or before t: times never fall, so it is the last of those that are.
pub fn latest_by(snapshots: &[u64], n: usize, t: u64) -> Option<usize>
    requires { SnapshotsById snapshots.now n × SnapshotsByTime snapshots.now n }
    ensures { LatestBy snapshots.now n t result }
{
    let times = Fields {
        words: snapshots,
        size: SnapshotRecord::SIZE,
        at: SnapshotRecord::TIME,
        n,
    };
    let k = times.count_through(t, times.interpolate(t));
    if k == 0 {
        return None;
    }
    Some(k - 1)
}

ghost use Rattle.std.specs.Prelude.{◌≡◌, ◌+◌, ◌*◌, ◌≤◌, length};
ghost use Rattle.lists.specs.Runs.{at, overwrite};
ghost use Rattle.layout.specs.Fields.{delete_file_size};
ghost use Rattle.layout.specs.Records.{delete_file_layout, delete_file_words};

use layout::number::{CatalogId, FileId, SnapshotId};
use layout::record::{DeleteFileRecord, Uuid};

// A delete file at the place i.
pub fn delete_file_at(w: &[u64], i: usize) -> DeleteFileRecord
    requires { delete_file_size * i + delete_file_size ≤ length w.now }
    ensures { result ≡ at delete_file_layout w.now i }
{
    let k = DeleteFileRecord::SIZE * i;
    DeleteFileRecord {
        id: FileId(w[k + DeleteFileRecord::ID]),
        table: CatalogId(w[k + DeleteFileRecord::TABLE]),
        begin: SnapshotId(w[k + DeleteFileRecord::BEGIN]),
        end: SnapshotId(w[k + DeleteFileRecord::END]),
        data_file: FileId(w[k + DeleteFileRecord::DATA_FILE]),
        delete_count: w[k + DeleteFileRecord::DELETE_COUNT],
        uuid: Uuid {
            high: w[k + DeleteFileRecord::UUID_HIGH],
            low: w[k + DeleteFileRecord::UUID_LOW],
        },
    }
}

pub fn write_delete_file(w: &mut [u64], i: usize, r: DeleteFileRecord)
    requires { delete_file_size * i + delete_file_size ≤ length w.old }
    ensures { w.new ≡ overwrite w.old (delete_file_size * i) (delete_file_words r) }
{
    let k = DeleteFileRecord::SIZE * i;
    w[k + DeleteFileRecord::ID] = r.id.0;
    w[k + DeleteFileRecord::TABLE] = r.table.0;
    w[k + DeleteFileRecord::BEGIN] = r.begin.0;
    w[k + DeleteFileRecord::END] = r.end.0;
    w[k + DeleteFileRecord::DATA_FILE] = r.data_file.0;
    w[k + DeleteFileRecord::DELETE_COUNT] = r.delete_count;
    w[k + DeleteFileRecord::UUID_HIGH] = r.uuid.high;
    w[k + DeleteFileRecord::UUID_LOW] = r.uuid.low;
}

// One field of it.
pub fn delete_file_id(w: &[u64], i: usize) -> FileId
    requires { delete_file_size * i + delete_file_size ≤ length w.now }
    ensures { result ≡ (at delete_file_layout w.now i).id }
{
    FileId(w[DeleteFileRecord::SIZE * i + DeleteFileRecord::ID])
}

pub fn delete_file_table(w: &[u64], i: usize) -> CatalogId
    requires { delete_file_size * i + delete_file_size ≤ length w.now }
    ensures { result ≡ (at delete_file_layout w.now i).table }
{
    CatalogId(w[DeleteFileRecord::SIZE * i + DeleteFileRecord::TABLE])
}

pub fn delete_file_data_file(w: &[u64], i: usize) -> FileId
    requires { delete_file_size * i + delete_file_size ≤ length w.now }
    ensures { result ≡ (at delete_file_layout w.now i).data_file }
{
    FileId(w[DeleteFileRecord::SIZE * i + DeleteFileRecord::DATA_FILE])
}

pub fn delete_file_begin(w: &[u64], i: usize) -> SnapshotId
    requires { delete_file_size * i + delete_file_size ≤ length w.now }
    ensures { result ≡ (at delete_file_layout w.now i).begin }
{
    SnapshotId(w[DeleteFileRecord::SIZE * i + DeleteFileRecord::BEGIN])
}

pub fn delete_file_end(w: &[u64], i: usize) -> SnapshotId
    requires { delete_file_size * i + delete_file_size ≤ length w.now }
    ensures { result ≡ (at delete_file_layout w.now i).end }
{
    SnapshotId(w[DeleteFileRecord::SIZE * i + DeleteFileRecord::END])
}

pub fn delete_file_delete_count(w: &[u64], i: usize) -> u64
    requires { delete_file_size * i + delete_file_size ≤ length w.now }
    ensures { result ≡ (at delete_file_layout w.now i).delete_count }
{
    w[DeleteFileRecord::SIZE * i + DeleteFileRecord::DELETE_COUNT]
}

ghost use Rattle.std.specs.Prelude.{◌≡◌, ◌+◌, ◌*◌, ◌≤◌, length};
ghost use Rattle.lists.specs.Runs.{at, overwrite};
ghost use Rattle.layout.specs.Fields.{data_file_size};
ghost use Rattle.layout.specs.Records.{data_file_layout, data_file_words};

use layout::number::{CatalogId, FileId, RowId, SnapshotId};
use layout::record::{DataFileRecord, Uuid};

// A data file at the place i.
pub fn data_file_at(w: &[u64], i: usize) -> DataFileRecord
    requires { data_file_size * i + data_file_size ≤ length w.now }
    ensures { result ≡ at data_file_layout w.now i }
{
    let k = DataFileRecord::SIZE * i;
    DataFileRecord {
        id: FileId(w[k + DataFileRecord::ID]),
        table: CatalogId(w[k + DataFileRecord::TABLE]),
        begin: SnapshotId(w[k + DataFileRecord::BEGIN]),
        end: SnapshotId(w[k + DataFileRecord::END]),
        record_count: w[k + DataFileRecord::RECORD_COUNT],
        row_id_start: RowId(w[k + DataFileRecord::ROW_ID_START]),
        uuid: Uuid {
            high: w[k + DataFileRecord::UUID_HIGH],
            low: w[k + DataFileRecord::UUID_LOW],
        },
    }
}

pub fn write_data_file(w: &mut [u64], i: usize, r: DataFileRecord)
    requires { data_file_size * i + data_file_size ≤ length w.old }
    ensures { w.new ≡ overwrite w.old (data_file_size * i) (data_file_words r) }
{
    let k = DataFileRecord::SIZE * i;
    w[k + DataFileRecord::ID] = r.id.0;
    w[k + DataFileRecord::TABLE] = r.table.0;
    w[k + DataFileRecord::BEGIN] = r.begin.0;
    w[k + DataFileRecord::END] = r.end.0;
    w[k + DataFileRecord::RECORD_COUNT] = r.record_count;
    w[k + DataFileRecord::ROW_ID_START] = r.row_id_start.0;
    w[k + DataFileRecord::UUID_HIGH] = r.uuid.high;
    w[k + DataFileRecord::UUID_LOW] = r.uuid.low;
}

// One field of it.
pub fn data_file_id(w: &[u64], i: usize) -> FileId
    requires { data_file_size * i + data_file_size ≤ length w.now }
    ensures { result ≡ (at data_file_layout w.now i).id }
{
    FileId(w[DataFileRecord::SIZE * i + DataFileRecord::ID])
}

pub fn data_file_table(w: &[u64], i: usize) -> CatalogId
    requires { data_file_size * i + data_file_size ≤ length w.now }
    ensures { result ≡ (at data_file_layout w.now i).table }
{
    CatalogId(w[DataFileRecord::SIZE * i + DataFileRecord::TABLE])
}

pub fn data_file_begin(w: &[u64], i: usize) -> SnapshotId
    requires { data_file_size * i + data_file_size ≤ length w.now }
    ensures { result ≡ (at data_file_layout w.now i).begin }
{
    SnapshotId(w[DataFileRecord::SIZE * i + DataFileRecord::BEGIN])
}

pub fn data_file_record_count(w: &[u64], i: usize) -> u64
    requires { data_file_size * i + data_file_size ≤ length w.now }
    ensures { result ≡ (at data_file_layout w.now i).record_count }
{
    w[DataFileRecord::SIZE * i + DataFileRecord::RECORD_COUNT]
}

pub fn data_file_row_id_start(w: &[u64], i: usize) -> RowId
    requires { data_file_size * i + data_file_size ≤ length w.now }
    ensures { result ≡ (at data_file_layout w.now i).row_id_start }
{
    RowId(w[DataFileRecord::SIZE * i + DataFileRecord::ROW_ID_START])
}

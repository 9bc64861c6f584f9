ghost use Rattle.std.specs.Prelude.{◌≡◌};
ghost use Rattle.layout.specs.Catalog.{data_file_of};
ghost use Rattle.layout.specs.Words.{data_files_in};
ghost use Rattle.ducklake.specs.Liveness.{data_file_of_id};
ghost use Rattle.lookup.specs.Order.{DataFilesById};

use layout::number::{CatalogId, FileId, RowId, SnapshotId};
use layout::record::{DataFileRecord, Uuid};
use lookup::find::find_data_file;
use records::data_file::data_file_at;

// What stands for a data file that isn't there: no Option, since the definition data_file_of_id gives a record of zeros.
const NO_DATA_FILE: DataFileRecord = DataFileRecord {
    id: FileId(0),
    table: CatalogId(0),
    begin: SnapshotId(0),
    end: SnapshotId(0),
    record_count: 0,
    row_id_start: RowId(0),
    uuid: Uuid { high: 0, low: 0 },
};

// The data file of an id.
pub fn data_file_of_id(data_files: &[u64], n: usize, id: FileId) -> DataFileRecord
    requires { DataFilesById data_files.now n }
    ensures { data_file_of result ≡ data_file_of_id (data_files_in data_files.now n) id.0 }
{
    let found = find_data_file(data_files, n, id);
    match found {
        Some(i) => data_file_at(data_files, i),
        None => NO_DATA_FILE,
    }
}

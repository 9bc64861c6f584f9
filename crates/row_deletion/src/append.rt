ghost use Rattle.std.specs.Prelude.{◌≡◌, List, ℕ, ◌+◌, ◌*◌, ◌≤◌, length};
ghost use Rattle.lists.specs.Runs.{overwrite};
ghost use Rattle.layout.specs.Fields.{delete_file_size};
ghost use Rattle.layout.specs.Catalog.{delete_file_record};
ghost use Rattle.layout.specs.Records.{delete_file_words};
ghost use Rattle.call_laws.specs.Writes.{opened};

use layout::number::{CatalogId, FileId, SnapshotId};
use layout::record::{DeleteFileRecord, Uuid};
use records::delete_file::write_delete_file;

// A delete file of so many positions that begins at a snapshot, behind the first n.
// Stays: this and `append_data_file` each write a record of another type, with fields of its own.
pub fn append_delete_file(
    delete_files: &mut [u64],
    n: usize,
    id: FileId,
    begin: SnapshotId,
    table: CatalogId,
    data_file: FileId,
    delete_count: u64,
    uuid: Uuid,
)
    requires { delete_file_size * n + delete_file_size ≤ length delete_files.old }
    ensures { (positions : List ℕ) → delete_count ≡ length positions
        → delete_files.new ≡ overwrite delete_files.old (delete_file_size * n) (delete_file_words (delete_file_record
        (opened begin.0 id.0 (record { table = table.0; data_file = data_file.0; positions = positions; uuid = uuid })))) }
{
    write_delete_file(
        delete_files,
        n,
        DeleteFileRecord {
            id,
            table,
            begin,
            end: SnapshotId::ABSENT,
            data_file,
            delete_count,
            uuid,
        },
    );
}

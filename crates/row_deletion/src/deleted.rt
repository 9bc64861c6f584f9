ghost use Rattle.std.specs.Prelude.{◌≡◌};
ghost use Rattle.layout.specs.Words.{position_limit, delete_files_in};
ghost use Rattle.ducklake.specs.Liveness.{deleted_at};
ghost use Rattle.lookup.specs.Positions.{PositionsWithin};
ghost use Rattle.row_deletion.specs.Deleted.{DeletesKnown, DeletedPart};

use layout::number::{FileId, SnapshotId};
use lookup::deletion::find_live_delete_file;
use lookup::positions::positions_before;
use records::delete_file::delete_file_delete_count;

// So many words of a run, from `start` on. Not lookup's Block: DeletedPart and merge_positions count.
#[derive(Clone, Copy)]
pub struct Part {
    pub start: usize,
    pub count: usize,
}

// Where the positions lie that are deleted of a data file at s: those of its delete file, or none.
pub fn deleted_part(delete_files: &[u64], n: usize, data_file: FileId, s: SnapshotId) -> Part
    requires { PositionsWithin delete_files.now n position_limit }
    ensures { DeletedPart delete_files.now n s.0 data_file.0 result.start result.count }
{
    let found = find_live_delete_file(delete_files, n, data_file, s);
    match found {
        Some(i) => {
            let start = positions_before(delete_files, i);
            let count = delete_file_delete_count(delete_files, i) as usize;
            Part { start, count }
        }
        None => Part { start: 0, count: 0 },
    }
}

// The positions themselves, as a part of their run.
pub fn positions_deleted<'a>(
    delete_files: &[u64],
    n: usize,
    positions: &'a [u64],
    data_file: FileId,
    s: SnapshotId,
) -> &'a [u64]
    requires { DeletesKnown delete_files.now positions.now n }
    ensures { result.now ≡ deleted_at (delete_files_in delete_files.now positions.now n) s.0 data_file.0 }
{
    let part = deleted_part(delete_files, n, data_file, s);
    let start = part.start;
    let end = start + part.count;
    &positions[start..end]
}

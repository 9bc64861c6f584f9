ghost use Rattle.std.specs.Prelude.{◌≡◌, map, ◌≤◌, ◌<◌, length, min};
ghost use Rattle.lists.specs.Lists.{range};
ghost use Rattle.lists.specs.Runs.{at, overwrite};
ghost use Rattle.layout.specs.Records.{delete_file_layout};
ghost use Rattle.layout.specs.Words.{position_limit, positions_before, positions_at};
ghost use Rattle.lookup.specs.Positions.{PositionsWithin, PositionsLocated, PositionsFrom};

use layout::record::DeleteFileRecord;
use records::delete_file::{delete_file_at, delete_file_delete_count};

// Where the positions of each of n delete files begin.
pub fn position_starts(delete_files: &[u64], n: usize, starts: &mut [usize])
    requires { PositionsWithin delete_files.now n position_limit × (n ≤ length starts.old) }
    ensures { starts.new ≡ overwrite starts.old 0 (map (positions_before delete_files.now) (range 0 n)) }
{
    let mut sum: usize = 0;
    for i in 0..n {
        starts[i] = sum;
        let count = delete_file_delete_count(delete_files, i) as usize;
        sum += count;
    }
}

// Where those of the delete file n begin.
pub fn positions_before(delete_files: &[u64], n: usize) -> usize
    requires { PositionsWithin delete_files.now n position_limit }
    ensures { result ≡ positions_before delete_files.now n }
{
    let mut sum: usize = 0;
    for i in 0..n {
        let count = delete_file_delete_count(delete_files, i) as usize;
        sum += count;
    }
    sum
}

// The positions of the delete file i, which begin at `start`.
pub fn positions_of<'a>(
    delete_files: &[u64],
    positions: &'a [u64],
    i: usize,
    start: usize,
) -> &'a [u64]
    requires { PositionsFrom delete_files.now positions.now i start }
    ensures { result.now ≡ positions_at delete_files.now positions.now i }
{
    let count = delete_file_delete_count(delete_files, i) as usize;
    let end = start + count;
    &positions[start..end]
}

// n delete files, their positions, and where those of each begin.
#[derive(Clone, Copy)]
pub struct DeleteFiles<'a> {
    pub records: &'a [u64],
    pub positions: &'a [u64],
    pub starts: &'a [usize],
    pub n: usize,
    pub ghost located: { PositionsLocated records.now positions.now starts.now n },
}

impl<'a> DeleteFiles<'a> {
    // Where their positions begin is written to the lent places.
    pub fn located(
        records: &'a [u64],
        positions: &'a [u64],
        n: usize,
        starts: &'a mut [usize],
    ) -> Self
        requires { PositionsWithin records.now n (min position_limit (length positions.now)) × (n ≤ length starts.old) }
        ensures { (result.records.now ≡ records.now) × (result.positions.now ≡ positions.now) × (result.n ≡ n) }
    {
        position_starts(records, n, starts);
        DeleteFiles {
            records,
            positions,
            starts,
            n,
        }
    }

    pub fn at(self, i: usize) -> DeleteFileRecord
        requires { i < self.n }
        ensures { result ≡ at delete_file_layout self.entry.records.now i }
    {
        delete_file_at(self.records, i)
    }

    pub fn positions_of(self, i: usize) -> &'a [u64]
        requires { i < self.n }
        ensures { result.now ≡ positions_at self.entry.records.now self.entry.positions.now i }
    {
        positions_of(self.records, self.positions, i, self.starts[i])
    }
}

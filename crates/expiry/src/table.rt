ghost use Rattle.std.specs.Prelude.{◌*◌, ◌≤◌, length};
ghost use Rattle.lists.specs.Pieces.{row_pieces, Compacted, flagged};
ghost use Rattle.layout.specs.Fields.{snapshot_size, delete_file_size};
ghost use Rattle.layout.specs.Words.{positions_before, position_pieces};
ghost use Rattle.expiry.specs.Remaining.{Expirable, snapshot_stays, Versions};
ghost use Rattle.expiry.specs.Stayed.{RecordsLeft, NamedLeft, NamedVersions, Located, PositionsLeft, StatisticsOfFiles, StatisticsLeft};

use crate::flag::{Records, flag_snapshots, flag_statistics};
use crate::remaining::Remaining;
use layout::number::{NAME_SIZE, TABLE_LIMIT};
use layout::record::{DeleteFileRecord, SnapshotRecord, StatisticsRecord};
use records::delete_file::delete_file_delete_count;
use runs::flags::is_flagged;
use runs::kept::keep_rows;

// What stays of each table; how many records are left. The snapshots that are not listed:
pub fn expire_listed(snapshots: &mut [u64], n: usize, ids: &[u64]) -> usize
    requires { Expirable snapshots.old n ids.now }
    ensures { Compacted (row_pieces snapshot_size) (snapshot_stays snapshots.old ids.now) n
        snapshots.old (snapshot_size * result) snapshots.new }
{
    let mut flags = [0u8; TABLE_LIMIT];
    flag_snapshots(snapshots, n, ids, &mut flags);
    keep_rows(snapshots, SnapshotRecord::SIZE, n, &flags, 0)
}

// records that are live at one of the ids that remain,
// Stays: `Records` lends its words to read; here they are written.
pub fn expire_records(w: &mut [u64], size: usize, life: usize, n: usize, left: Remaining) -> usize
    requires { Versions size life w.old n }
    ensures { RecordsLeft size life w.old n left.entry.ids.now result w.new }
{
    let mut flags = [0u8; TABLE_LIMIT];
    let records = Records {
        words: w,
        size,
        life,
        n,
    };
    records.flag_live(left, &mut flags);
    keep_rows(w, size, n, &flags, 0)
}

// with their names,
pub fn expire_named(
    w: &mut [u64],
    names: &mut [u8],
    size: usize,
    life: usize,
    n: usize,
    left: Remaining,
) -> usize
    requires { NamedVersions size life w.old names.old n }
    ensures { NamedLeft size life w.old names.old n left.entry.ids.now result w.new names.new }
{
    let mut flags = [0u8; TABLE_LIMIT];
    let records = Records {
        words: w,
        size,
        life,
        n,
    };
    records.flag_live(left, &mut flags);
    keep_rows(names, NAME_SIZE, n, &flags, 0);
    keep_rows(w, size, n, &flags, 0)
}

// statistics whose data file stays,
pub fn expire_statistics(
    statistics: &mut [u64],
    n: usize,
    data_files: &[u64],
    k: usize,
    left: Remaining,
) -> usize
    requires { StatisticsOfFiles statistics.old n data_files.now k }
    ensures { StatisticsLeft statistics.old n data_files.now k left.entry.ids.now result statistics.new }
{
    let mut flags = [0u8; TABLE_LIMIT];
    flag_statistics(statistics, n, data_files, k, left, &mut flags);
    keep_rows(statistics, StatisticsRecord::SIZE, n, &flags, 0)
}

// The positions of the flagged of n delete files; how many they are.
fn keep_positions(positions: &mut [u64], delete_files: &[u64], n: usize, flags: &[u8]) -> usize
    requires { (delete_file_size * n ≤ length delete_files.now) × (positions_before delete_files.now n ≤ length positions.old)
        × (n ≤ length flags.now) }
    ensures { Compacted (position_pieces delete_files.now) (flagged flags.now) n
        positions.old result positions.new }
{
    let mut k: usize = 0;
    let mut at: usize = 0;
    for i in 0..n {
        let count = delete_file_delete_count(delete_files, i) as usize;
        let end = at + count;
        if is_flagged(flags, i) {
            positions.copy_within(at..end, k);
            k += count;
        }
        at = end;
    }
    positions[k..at].fill(0);
    k
}

// the positions of the delete files that stay.
pub fn expire_positions(
    positions: &mut [u64],
    delete_files: &[u64],
    n: usize,
    left: Remaining,
) -> usize
    requires { Located delete_files.now positions.old n }
    ensures { PositionsLeft delete_files.now positions.old n left.entry.ids.now result positions.new }
{
    let mut flags = [0u8; TABLE_LIMIT];
    let records = Records {
        words: delete_files,
        size: DeleteFileRecord::SIZE,
        life: DeleteFileRecord::BEGIN,
        n,
    };
    records.flag_live(left, &mut flags);
    keep_positions(positions, delete_files, n, &flags)
}

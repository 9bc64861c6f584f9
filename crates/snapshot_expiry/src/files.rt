ghost use Rattle.snapshot_expiry.specs.Written.{FilesLent, FilesLeft};

use expiry::remaining::Remaining;
use expiry::schedule::schedule_removed;
use expiry::table::{expire_positions, expire_records, expire_statistics};
use layout::outcome::Counts;
use layout::record::{DataFileRecord, DeleteFileRecord};

// Of data files and delete files those that are live at one of the ids that remain, with their statistics and positions; the others are scheduled first. What
// goes with a file goes before it.
pub fn expire_files(
    data_files: &mut [u64],
    delete_files: &mut [u64],
    positions: &mut [u64],
    statistics: &mut [u64],
    scheduled: &mut [u64],
    counts: Counts,
    left: Remaining,
    time: u64,
) -> Counts
    requires { FilesLent data_files.old delete_files.old positions.old statistics.old scheduled.old counts left.ids.now time }
    ensures { FilesLeft data_files.old delete_files.old positions.old statistics.old
        scheduled.old counts left.entry.ids.now time result data_files.new delete_files.new positions.new
        statistics.new scheduled.new }
{
    let x = schedule_removed(
        data_files,
        counts.data_files,
        delete_files,
        counts.delete_files,
        left,
        scheduled,
        counts.scheduled,
        time,
    );
    let q = expire_statistics(
        statistics,
        counts.statistics,
        data_files,
        counts.data_files,
        left,
    );
    let p = expire_positions(positions, delete_files, counts.delete_files, left);
    let f = expire_records(
        data_files,
        DataFileRecord::SIZE,
        DataFileRecord::BEGIN,
        counts.data_files,
        left,
    );
    let d = expire_records(
        delete_files,
        DeleteFileRecord::SIZE,
        DeleteFileRecord::BEGIN,
        counts.delete_files,
        left,
    );
    Counts {
        data_files: f,
        delete_files: d,
        positions: p,
        statistics: q,
        scheduled: x,
        ..counts
    }
}

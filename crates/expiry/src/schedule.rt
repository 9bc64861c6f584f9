ghost use Rattle.std.specs.Prelude.{◌≡◌, ◌+◌, ◌*◌, ◌≤◌, ◌<◌, length};
ghost use Rattle.lists.specs.Lists.{first_next};
ghost use Rattle.lists.specs.Runs.{field, overwrite};
ghost use Rattle.layout.specs.Fields.{data_file_size, data_file_id_word, delete_file_size, delete_file_id_word, scheduled_size};
ghost use Rattle.layout.specs.Records.{scheduled_words};
ghost use Rattle.layout.specs.Catalog.{scheduled_record};
ghost use Rattle.expiry.specs.Removed.{removed_files, Files, ScheduledMore};

use crate::flag::Records;
use crate::remaining::Remaining;
use layout::number::FileId;
use layout::record::{DataFileRecord, DeleteFileRecord, ScheduledRecord, Uuid};
use records::data_file::{data_file_at, data_file_id};
use records::delete_file::{delete_file_at, delete_file_id};
use records::scheduled::write_scheduled;

// Of the data files from the place i on and the delete files from the place j on, whether one of the data files has the lowest id.
fn data_file_next(
    data_files: &[u64],
    i: usize,
    n: usize,
    delete_files: &[u64],
    j: usize,
    k: usize,
) -> bool
    requires { (data_file_size * n ≤ length data_files.now) × (delete_file_size * k ≤ length delete_files.now) }
    ensures { result ≡ first_next (field data_file_size data_file_id_word data_files.now) i n
        (field delete_file_size delete_file_id_word delete_files.now) j k }
{
    if n <= i {
        return false;
    }
    if k <= j {
        return true;
    }
    let a = data_file_id(data_files, i);
    let b = delete_file_id(delete_files, j);
    a <= b
}

// A file, scheduled at the place `at`.
fn schedule_file(scheduled: &mut [u64], at: usize, file: FileId, uuid: Uuid, time: u64)
    requires { scheduled_size * at + scheduled_size ≤ length scheduled.old }
    ensures { scheduled.new ≡ overwrite scheduled.old (scheduled_size * at)
        (scheduled_words (scheduled_record (record { file = file.0; uuid = uuid; start = time }))) }
{
    write_scheduled(
        scheduled,
        at,
        ScheduledRecord {
            file,
            uuid,
            schedule_start: time,
        },
    );
}

// The files that are live at none of the ids that remain, behind the `used` scheduled records, by ascending id; how many are used then.
pub fn schedule_removed(
    data_files: &[u64],
    n: usize,
    delete_files: &[u64],
    k: usize,
    left: Remaining,
    scheduled: &mut [u64],
    used: usize,
    time: u64,
) -> usize
    requires { Files data_files.now n delete_files.now k
        × (scheduled_size * (used + length (removed_files data_files.now n delete_files.now k left.ids.now time)) ≤ length scheduled.old) }
    ensures { ScheduledMore (removed_files data_files.now n delete_files.now k left.entry.ids.now time)
        scheduled.old used result scheduled.new }
{
    let files = Records {
        words: data_files,
        size: DataFileRecord::SIZE,
        life: DataFileRecord::BEGIN,
        n,
    };
    let deletes = Records {
        words: delete_files,
        size: DeleteFileRecord::SIZE,
        life: DeleteFileRecord::BEGIN,
        n: k,
    };
    let mut at = used;
    let mut i: usize = 0;
    let mut j: usize = 0;
    // Stays: each turn moves one of two cursors.
    while i + j < n + k {
        let first = data_file_next(data_files, i, n, delete_files, j, k);
        if first {
            let live = files.stays(i, left);
            if !live {
                let f = data_file_at(data_files, i);
                schedule_file(scheduled, at, f.id, f.uuid, time);
                at += 1;
            }
            i += 1;
        } else {
            let live = deletes.stays(j, left);
            if !live {
                let d = delete_file_at(delete_files, j);
                schedule_file(scheduled, at, d.id, d.uuid, time);
                at += 1;
            }
            j += 1;
        }
    }
    at
}

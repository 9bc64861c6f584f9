ghost use Rattle.std.specs.Prelude.{◌≡◌, ◌+◌, ◌*◌, ◌≤◌, ltb, length};
ghost use Rattle.lists.specs.Runs.{overwrite};
ghost use Rattle.lists.specs.Pieces.{row_pieces, Compacted, Flags};
ghost use Rattle.layout.specs.Fields.{scheduled_size};
ghost use Rattle.layout.specs.Catalog.{scheduled_of};
ghost use Rattle.ducklake.specs.Maintenance.{handed_size, handed_words};
ghost use Rattle.cleanup.specs.Handed.{ScheduledLent, due_in, words_due, Handed, stays_at};

use layout::number::{HANDED_SIZE, TABLE_LIMIT};
use layout::record::ScheduledRecord;
use records::scheduled::{scheduled_at, scheduled_start};
use runs::flags::set_flag;
use runs::kept::keep_rows;

// "schedule_start < t"
fn is_due(start: u64, t: u64) -> bool
    ensures { result ≡ ltb start t }
{
    start < t
}

// How many of the first n records are due.
pub fn count_due(scheduled: &[u64], n: usize, t: u64) -> usize
    requires { ScheduledLent scheduled.now n }
    ensures { result ≡ length (due_in scheduled.now n t) }
{
    let mut k: usize = 0;
    for i in 0..n {
        let start = scheduled_start(scheduled, i);
        let due = is_due(start, t);
        if due {
            k += 1;
        }
    }
    k
}

// A file's id and UUID, from the word k of the area on.
fn write_handed(area: &mut [u64], k: usize, r: ScheduledRecord)
    requires { k + handed_size ≤ length area.old }
    ensures { area.new ≡ overwrite area.old k (handed_words (scheduled_of r)) }
{
    area[k] = r.file.0;
    area[k + 1] = r.uuid.high;
    area[k + 2] = r.uuid.low;
}

// The words of what is due, at the front of the area; how many they are.
pub fn hand_out(scheduled: &[u64], n: usize, t: u64, area: &mut [u64]) -> usize
    requires { ScheduledLent scheduled.now n × (length (words_due scheduled.now n t) ≤ length area.old) }
    ensures { Handed scheduled.now n t area.old result area.new }
{
    let mut k: usize = 0;
    for i in 0..n {
        let r = scheduled_at(scheduled, i);
        let due = is_due(r.schedule_start, t);
        if due {
            write_handed(area, k, r);
            k += HANDED_SIZE;
        }
    }
    k
}

// The flags of those that are not due.
fn flag_later(scheduled: &[u64], n: usize, t: u64, flags: &mut [u8])
    requires { ScheduledLent scheduled.now n × (n ≤ length flags.old) }
    ensures { Flags (stays_at scheduled.now t) n flags.new }
{
    for i in 0..n {
        let start = scheduled_start(scheduled, i);
        let due = is_due(start, t);
        set_flag(flags, i, !due);
    }
}

// What is due goes, gaps close, freed places become 0; how many records are left.
pub fn remove_due(scheduled: &mut [u64], n: usize, t: u64) -> usize
    requires { ScheduledLent scheduled.old n }
    ensures { Compacted (row_pieces scheduled_size) (stays_at scheduled.old t) n
        scheduled.old (scheduled_size * result) scheduled.new }
{
    let mut flags = [0u8; TABLE_LIMIT];
    flag_later(scheduled, n, t, &mut flags);
    keep_rows(scheduled, ScheduledRecord::SIZE, n, &flags, 0)
}

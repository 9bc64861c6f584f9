ghost use Rattle.std.specs.Prelude.{◌≡◌, ◌+◌, ◌*◌, ◌≤◌, length};
ghost use Rattle.lists.specs.Runs.{at, overwrite};
ghost use Rattle.layout.specs.Fields.{scheduled_size};
ghost use Rattle.layout.specs.Records.{scheduled_layout, scheduled_words};

use layout::number::FileId;
use layout::record::{ScheduledRecord, Uuid};

// A scheduled record at the place i.
pub fn scheduled_at(w: &[u64], i: usize) -> ScheduledRecord
    requires { scheduled_size * i + scheduled_size ≤ length w.now }
    ensures { result ≡ at scheduled_layout w.now i }
{
    let k = ScheduledRecord::SIZE * i;
    ScheduledRecord {
        file: FileId(w[k + ScheduledRecord::FILE]),
        uuid: Uuid {
            high: w[k + ScheduledRecord::UUID_HIGH],
            low: w[k + ScheduledRecord::UUID_LOW],
        },
        schedule_start: w[k + ScheduledRecord::SCHEDULE_START],
    }
}

pub fn write_scheduled(w: &mut [u64], i: usize, r: ScheduledRecord)
    requires { scheduled_size * i + scheduled_size ≤ length w.old }
    ensures { w.new ≡ overwrite w.old (scheduled_size * i) (scheduled_words r) }
{
    let k = ScheduledRecord::SIZE * i;
    w[k + ScheduledRecord::FILE] = r.file.0;
    w[k + ScheduledRecord::UUID_HIGH] = r.uuid.high;
    w[k + ScheduledRecord::UUID_LOW] = r.uuid.low;
    w[k + ScheduledRecord::SCHEDULE_START] = r.schedule_start;
}

// One field of it.
pub fn scheduled_file(w: &[u64], i: usize) -> FileId
    requires { scheduled_size * i + scheduled_size ≤ length w.now }
    ensures { result ≡ (at scheduled_layout w.now i).file }
{
    FileId(w[ScheduledRecord::SIZE * i + ScheduledRecord::FILE])
}

pub fn scheduled_start(w: &[u64], i: usize) -> u64
    requires { scheduled_size * i + scheduled_size ≤ length w.now }
    ensures { result ≡ (at scheduled_layout w.now i).schedule_start }
{
    w[ScheduledRecord::SIZE * i + ScheduledRecord::SCHEDULE_START]
}

ghost use Rattle.std.specs.Prelude.{◌≡◌, ◌+◌, ◌*◌, ◌≤◌, length};
ghost use Rattle.lists.specs.Runs.{at, overwrite};
ghost use Rattle.layout.specs.Fields.{statistics_size};
ghost use Rattle.layout.specs.Records.{statistics_layout, statistics_words};

use layout::number::FileId;
use layout::record::StatisticsRecord;

// A statistics record at the place i.
pub fn statistics_at(w: &[u64], i: usize) -> StatisticsRecord
    requires { statistics_size * i + statistics_size ≤ length w.now }
    ensures { result ≡ at statistics_layout w.now i }
{
    let k = StatisticsRecord::SIZE * i;
    StatisticsRecord {
        data_file: FileId(w[k + StatisticsRecord::DATA_FILE]),
        column: w[k + StatisticsRecord::COLUMN],
        null_count: w[k + StatisticsRecord::NULL_COUNT],
        has_min: w[k + StatisticsRecord::HAS_MIN],
        has_max: w[k + StatisticsRecord::HAS_MAX],
        min: w[k + StatisticsRecord::MIN],
        max: w[k + StatisticsRecord::MAX],
    }
}

pub fn write_statistics(w: &mut [u64], i: usize, r: StatisticsRecord)
    requires { statistics_size * i + statistics_size ≤ length w.old }
    ensures { w.new ≡ overwrite w.old (statistics_size * i) (statistics_words r) }
{
    let k = StatisticsRecord::SIZE * i;
    w[k + StatisticsRecord::DATA_FILE] = r.data_file.0;
    w[k + StatisticsRecord::COLUMN] = r.column;
    w[k + StatisticsRecord::NULL_COUNT] = r.null_count;
    w[k + StatisticsRecord::HAS_MIN] = r.has_min;
    w[k + StatisticsRecord::HAS_MAX] = r.has_max;
    w[k + StatisticsRecord::MIN] = r.min;
    w[k + StatisticsRecord::MAX] = r.max;
}

// One field of it.
pub fn statistics_data_file(w: &[u64], i: usize) -> FileId
    requires { statistics_size * i + statistics_size ≤ length w.now }
    ensures { result ≡ (at statistics_layout w.now i).data_file }
{
    FileId(w[StatisticsRecord::SIZE * i + StatisticsRecord::DATA_FILE])
}

pub fn statistics_column(w: &[u64], i: usize) -> u64
    requires { statistics_size * i + statistics_size ≤ length w.now }
    ensures { result ≡ (at statistics_layout w.now i).column }
{
    w[StatisticsRecord::SIZE * i + StatisticsRecord::COLUMN]
}

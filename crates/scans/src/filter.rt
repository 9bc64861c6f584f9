ghost use Rattle.std.specs.Prelude.{◌≡◌};
ghost use Rattle.layout.specs.Catalog.{Versioned, DataFile, statistics_of};
ghost use Rattle.layout.specs.Words.{statistics_in};
ghost use Rattle.ducklake.specs.Readings.{admits, kept};
ghost use Rattle.lookup.specs.Order.{StatisticsByFile};
ghost use Rattle.scans.specs.Filters.{passes};

use column_types::to_signed;
use layout::number::FileId;
use layout::record::StatisticsRecord;
use lookup::block::statistics_near;
use records::statistics::statistics_at;
use runs::fields::Fields;
use runs::hints::{Scale, fill_hints};

// Keeps the files that may hold a row with `column = scalar`. A list without a filter keeps every one.
#[derive(Clone, Copy)]
pub struct Filter {
    pub column: u64,
    pub scalar: i64,
}

// Whether the bounds of a statistics record admit the scalar.
fn record_admits(x: StatisticsRecord, scalar: i64) -> bool
    ensures { result ≡ admits scalar (statistics_of x) }
{
    let min = to_signed(x.min);
    let max = to_signed(x.max);
    ((x.has_min == 0) | (min <= scalar)) & ((x.has_max == 0) | (scalar <= max))
}

// Whether a data file's statistics record for the column is there and admits the scalar: its statistics are sought from the place `near` on.
fn file_admits(
    statistics: &[u64],
    n: usize,
    data_file: FileId,
    near: usize,
    column: u64,
    scalar: i64,
) -> bool
    requires { StatisticsByFile statistics.now n }
    ensures { (f : Versioned DataFile) → f.id ≡ data_file.0 → result ≡ kept (statistics_in statistics.now n) column scalar f }
{
    let block = statistics_near(statistics, n, data_file, near);
    for i in block.start..block.end {
        let x = statistics_at(statistics, i);
        let admitted = record_admits(x, scalar);
        if (x.column == column) & admitted {
            return true;
        }
    }
    false
}

// Whether the filter keeps the data file, whose statistics most often are at `near`.
pub fn file_passes(
    statistics: &[u64],
    n: usize,
    data_file: FileId,
    near: usize,
    filter: Option<Filter>,
) -> bool
    requires { StatisticsByFile statistics.now n }
    ensures { (f : Versioned DataFile) → f.id ≡ data_file.0 → result ≡ passes filter (statistics_in statistics.now n) f }
{
    match filter {
        Some(q) => file_admits(statistics, n, data_file, near, q.column, q.scalar),
        None => true,
    }
}

// Writes where the statistics of data files may be, for a filter that looks at them.
pub fn fill_filter_hints(
    statistics: &[u64],
    n: usize,
    filter: Option<Filter>,
    hints: &mut [u16],
) -> Scale
    requires { StatisticsByFile statistics.now n }
{
    match filter {
        Some(_) => {
            let of_files = Fields {
                words: statistics,
                size: StatisticsRecord::SIZE,
                at: StatisticsRecord::DATA_FILE,
                n,
            };
            fill_hints(of_files, hints)
        }
        None => Scale { first: 0, shift: 0 },
    }
}

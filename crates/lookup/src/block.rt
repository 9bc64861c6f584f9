ghost use Rattle.std.specs.Prelude.{◌≡◌, true, leb};
ghost use Rattle.lists.specs.Lists.{chained};
ghost use Rattle.lists.specs.Runs.{field, Together};
ghost use Rattle.runs.specs.Fields.{values};
ghost use Rattle.layout.specs.Fields.{column_size, column_table_word, statistics_size, statistics_data_file_word};
ghost use Rattle.lookup.specs.Order.{ColumnsByTable, StatisticsByFile};

use layout::number::{CatalogId, FileId};
use layout::record::{ColumnRecord, StatisticsRecord};
use runs::fields::Fields;

// The places from `start` up to, and without, `end`.
#[derive(Clone, Copy)]
pub struct Block {
    pub start: usize,
    pub end: usize,
}

// Where the words are `key`, among which equal words stand together: sought from the places on where the first and the last of them may be.
fn block_between(keys: Fields, key: u64, first: usize, last: usize) -> Block
    requires { chained leb (values keys) ≡ true }
    ensures { Together (field keys.entry.size keys.entry.at keys.entry.words.now) keys.entry.n key result.start result.end }
{
    let start = keys.count_below(key, first);
    let end = keys.count_through(key, last);
    Block { start, end }
}

// The same: the last is sought from the first on, which is sought from the place `near` on.
fn block_near(keys: Fields, key: u64, near: usize) -> Block
    requires { chained leb (values keys) ≡ true }
    ensures { Together (field keys.entry.size keys.entry.at keys.entry.words.now) keys.entry.n key result.start result.end }
{
    let start = keys.count_below(key, near);
    let end = keys.count_through(key, start);
    Block { start, end }
}

// The columns of a table, which are sought from the place `near` on.
// Stays: `block_near` is the one function of columns and statistics; each names a table, its words and the type of its id.
pub fn columns_near(columns: &[u64], n: usize, table: CatalogId, near: usize) -> Block
    requires { ColumnsByTable columns.now n }
    ensures { Together (field column_size column_table_word columns.now) n table.0 result.start result.end }
{
    let keys = Fields {
        words: columns,
        size: ColumnRecord::SIZE,
        at: ColumnRecord::TABLE,
        n,
    };
    block_near(keys, table.0, near)
}

// The same, from the places where its first and its last column may be.
// Stays: `block_between` is the one function of columns and statistics, in the same way.
pub fn columns_between(
    columns: &[u64],
    n: usize,
    table: CatalogId,
    first: usize,
    last: usize,
) -> Block
    requires { ColumnsByTable columns.now n }
    ensures { Together (field column_size column_table_word columns.now) n table.0 result.start result.end }
{
    let keys = Fields {
        words: columns,
        size: ColumnRecord::SIZE,
        at: ColumnRecord::TABLE,
        n,
    };
    block_between(keys, table.0, first, last)
}

// The columns of a table.
pub fn columns_of(columns: &[u64], n: usize, table: CatalogId) -> Block
    requires { ColumnsByTable columns.now n }
    ensures { Together (field column_size column_table_word columns.now) n table.0 result.start result.end }
{
    let keys = Fields {
        words: columns,
        size: ColumnRecord::SIZE,
        at: ColumnRecord::TABLE,
        n,
    };
    block_near(keys, table.0, keys.interpolate(table.0))
}

// The statistics of a data file, which are sought from the place `near` on.
pub fn statistics_near(statistics: &[u64], n: usize, data_file: FileId, near: usize) -> Block
    requires { StatisticsByFile statistics.now n }
    ensures { Together (field statistics_size statistics_data_file_word statistics.now) n data_file.0 result.start result.end }
{
    let keys = Fields {
        words: statistics,
        size: StatisticsRecord::SIZE,
        at: StatisticsRecord::DATA_FILE,
        n,
    };
    block_near(keys, data_file.0, near)
}

// The same, from the places where its first and its last record may be.
pub fn statistics_between(
    statistics: &[u64],
    n: usize,
    data_file: FileId,
    first: usize,
    last: usize,
) -> Block
    requires { StatisticsByFile statistics.now n }
    ensures { Together (field statistics_size statistics_data_file_word statistics.now) n data_file.0 result.start result.end }
{
    let keys = Fields {
        words: statistics,
        size: StatisticsRecord::SIZE,
        at: StatisticsRecord::DATA_FILE,
        n,
    };
    block_between(keys, data_file.0, first, last)
}

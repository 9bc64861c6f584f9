ghost use Rattle.std.specs.Prelude.{◌≡◌, ℕ, ◌*◌, ◌≤◌, List, length};
ghost use Rattle.lists.specs.Lists.{all};
ghost use Rattle.lists.specs.Runs.{field, Together};
ghost use Rattle.layout.specs.Catalog.{data_file_of};
ghost use Rattle.layout.specs.Fields.{column_size, column_table_word, statistics_size, statistics_data_file_word};
ghost use Rattle.layout.specs.Words.{Words, load, columns_in, data_files_in, statistics_in};
ghost use Rattle.ducklake.specs.Soundness.{file_statistics_sound, statistics_on_file, statistics_sound};
ghost use Rattle.lookup.specs.Order.{ColumnsByTable, DataFilesById, StatisticsByFile};
ghost use Rattle.soundness_statistics.specs.Checkable.{StatisticsCheckable};

use crate::fit::{statistics_fit, statistics_wanted};
use layout::number::FileId;
use layout::outcome::Counts;
use layout::record::DataFileRecord;
use lookup::block::{Block, columns_between, statistics_between};
use lookup::find::find_data_file_near;
use lookup::places::block_start;
use records::column::column_at;
use records::data_file::data_file_at;
use records::statistics::{statistics_at, statistics_data_file};
use runs::hints::place_at;
use std::num::{wrapping_add_usize, wrapping_sub_usize};

// "each data file has one statistics record for each column live at its begin", in the order of columns; its table's columns `own`, the records `given`
fn file_statistics_sound(
    columns: &[u64],
    n: usize,
    statistics: &[u64],
    m: usize,
    own: Block,
    given: Block,
    file: DataFileRecord,
) -> bool
    requires { ColumnsByTable columns.now n × StatisticsByFile statistics.now m
        × Together (field column_size column_table_word columns.now) n file.table.0 own.start own.end
        × Together (field statistics_size statistics_data_file_word statistics.now) m file.id.0 given.start given.end }
    ensures { (names : List ℕ)
        → result ≡ file_statistics_sound (columns_in columns.now names n) (statistics_in statistics.now m) (data_file_of file) }
{
    let mut x = given.start;
    for c in own.start..own.end {
        let column = column_at(columns, c);
        let wanted = statistics_wanted(column, file.begin);
        if !wanted {
            continue;
        }
        if given.end <= x {
            return false;
        }
        let s = statistics_at(statistics, x);
        let ok = statistics_fit(file.record_count, column, s);
        if !ok {
            return false;
        }
        x += 1;
    }
    x == given.end
}

// The same of every data file. Both ascend by file, so the statistics of the next file most often follow, as many as its table has columns. These are sought
// where the columns of the table's place begin, and the table's place is where the file most likely leads.
fn all_file_statistics_sound(
    columns: &[u64],
    data_files: &[u64],
    statistics: &[u64],
    counts: Counts,
    places: &[u16],
    starts: &[u16],
) -> bool
    requires { StatisticsCheckable columns.now data_files.now statistics.now counts }
    ensures { (names : List ℕ)
        → result ≡ all (file_statistics_sound (columns_in columns.now names counts.columns) (statistics_in statistics.now counts.statistics))
        (data_files_in data_files.now counts.data_files) }
{
    let n = counts.columns;
    let m = counts.statistics;
    let mut near: usize = 0;
    for i in 0..counts.data_files {
        let file = data_file_at(data_files, i);
        let place = place_at(places, i);
        let first = block_start(starts, place, n);
        let next = block_start(starts, wrapping_add_usize(place, 1), n);
        let own = columns_between(columns, n, file.table, first, wrapping_sub_usize(next, 1));
        let last = wrapping_add_usize(near, wrapping_sub_usize(own.end, own.start));
        let given = statistics_between(statistics, m, file.id, near, wrapping_sub_usize(last, 1));
        near = given.end;
        let ok = file_statistics_sound(columns, n, statistics, m, own, given, file);
        if !ok {
            return false;
        }
    }
    true
}

// "and no other": every statistics record is of a data file, most often of that of the record before, or of the next.
fn statistics_on_files(data_files: &[u64], n: usize, statistics: &[u64], m: usize) -> bool
    requires { DataFilesById data_files.now n × (statistics_size * m ≤ length statistics.now) }
    ensures { result ≡ all (statistics_on_file (data_files_in data_files.now n)) (statistics_in statistics.now m) }
{
    let mut near: usize = 0;
    let mut last = FileId(0);
    for i in 0..m {
        let file = statistics_data_file(statistics, i);
        if file != last {
            near = wrapping_add_usize(near, 1);
        }
        last = file;
        let found = find_data_file_near(data_files, n, file, near);
        let Some(j) = found else {
            return false;
        };
        near = j;
    }
    true
}

pub fn statistics_sound(
    columns: &[u64],
    data_files: &[u64],
    statistics: &[u64],
    counts: Counts,
    places: &[u16],
    starts: &[u16],
) -> bool
    requires { StatisticsCheckable columns.now data_files.now statistics.now counts }
    ensures { (w : Words) → w.columns ≡ columns.now → w.data_files ≡ data_files.now
        → w.statistics ≡ statistics.now → result ≡ statistics_sound (load w counts) }
{
    let a = all_file_statistics_sound(columns, data_files, statistics, counts, places, starts);
    let b = statistics_on_files(data_files, counts.data_files, statistics, counts.statistics);
    a & b
}

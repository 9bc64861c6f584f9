ghost use Rattle.std.specs.Prelude.{◌≡◌, true, List, ℕ, ◌≤◌, length, replicate};
ghost use Rattle.lists.specs.Lists.{all, pairwise};
ghost use Rattle.layout.specs.Catalog.{data_file_of};
ghost use Rattle.layout.specs.Words.{Words, load, tables_in, data_files_in};
ghost use Rattle.ducklake.specs.Soundness.{data_file_in_range, row_id_end, rows_before, rows_in_table, row_ranges_sound};
ghost use Rattle.lookup.specs.Order.{TablesById};
ghost use Rattle.soundness_deletes.specs.Rows.{RowRangesCheckable};

use layout::number::RowId;
use layout::outcome::Counts;
use layout::record::DataFileRecord;
use lookup::find::find_table_near;
use records::data_file::data_file_at;
use records::table::table_next_row_id;
use runs::hints::place_at;

// The row number after the last of a file.
fn row_id_end(file: DataFileRecord) -> RowId
    requires { data_file_in_range (data_file_of file) ≡ true }
    ensures { result.0 ≡ row_id_end (data_file_of file) }
{
    RowId(file.row_id_start.0 + file.record_count)
}

// Whether the rows of a file "end at or below next_row_id" of its table, which most often is at `near`.
fn rows_in_table(tables: &[u64], n: usize, file: DataFileRecord, near: usize) -> bool
    requires { TablesById tables.now n × (data_file_in_range (data_file_of file) ≡ true) }
    ensures { (names : List ℕ) → result ≡ rows_in_table (tables_in tables.now names n) (data_file_of file) }
{
    let found = find_table_near(tables, n, file.table, near);
    match found {
        Some(j) => {
            let end = row_id_end(file);
            let next = table_next_row_id(tables, j);
            end <= next
        }
        None => false,
    }
}

// Tables, their data files, and of each file the place where its table most likely is.
#[derive(Clone, Copy)]
struct RowRanges<'a> {
    tables: &'a [u64],
    data_files: &'a [u64],
    counts: Counts,
    places: &'a [u16],
    ghost checkable: { RowRangesCheckable tables.now data_files.now counts },
}

impl<'a> RowRanges<'a> {
    fn in_tables(self) -> bool
        ensures { (names : List ℕ) → result ≡ all (rows_in_table (tables_in self.entry.tables.now names self.entry.counts.tables))
            (data_files_in self.entry.data_files.now self.entry.counts.data_files) }
    {
        for i in 0..self.counts.data_files {
            let file = data_file_at(self.data_files, i);
            if !rows_in_table(
                self.tables,
                self.counts.tables,
                file,
                place_at(self.places, i),
            ) {
                return false;
            }
        }
        true
    }

    // Whether the rows of a table's files ascend with the file id and don't overlap: in one pass that notes, for each table, where its rows end;
    // none do at first.
    fn ascend(self, ends: &mut [u64]) -> bool
        requires { ((names : List ℕ)
            → all (rows_in_table (tables_in self.tables.now names self.counts.tables)) (data_files_in self.data_files.now self.counts.data_files) ≡ true)
            × (ends.old ≡ replicate self.counts.tables 0) }
        ensures { result ≡ pairwise rows_before (data_files_in self.entry.data_files.now self.entry.counts.data_files) }
    {
        for i in 0..self.counts.data_files {
            let file = data_file_at(self.data_files, i);
            let near = place_at(self.places, i);
            let Some(k) = find_table_near(self.tables, self.counts.tables, file.table, near) else {
                return false;
            };
            let noted = &mut ends[k];
            // Stays: what is noted is a word of the scratch.
            if file.row_id_start.0 < *noted {
                return false;
            }
            *noted = row_id_end(file).0;
        }
        true
    }
}

// Of each file there is the place where its table most likely is; the ends are scratch.
// "row ranges of a table's files ascend with the file id, don't overlap, and end at or below next_row_id"
pub fn row_ranges_sound(
    tables: &[u64],
    data_files: &[u64],
    counts: Counts,
    places: &[u16],
    ends: &mut [u64],
) -> bool
    requires { RowRangesCheckable tables.now data_files.now counts × (counts.tables ≤ length ends.old) }
    ensures { (w : Words) → w.tables ≡ tables.now → w.data_files ≡ data_files.now
        → result ≡ row_ranges_sound (load w counts) }
{
    let ranges = RowRanges {
        tables,
        data_files,
        counts,
        places,
    };
    if !ranges.in_tables() {
        return false;
    }
    let n = counts.tables;
    ends[0..n].fill(0);
    ranges.ascend(&mut ends[0..n])
}

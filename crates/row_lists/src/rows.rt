ghost use Rattle.std.specs.Prelude.{◌≡◌, ◌&&◌, ◌≤◌, ◌+◌, ltb, eqb, length, get_or};
ghost use mathlib.Core.List.{flat_map};
ghost use Rattle.lists.specs.Runs.{overwrite};
ghost use Rattle.layout.specs.Catalog.{record_count_limit};
ghost use Rattle.layout.specs.Words.{data_files_in, delete_files_in};
ghost use Rattle.ducklake.specs.Liveness.{data_files_at};
ghost use Rattle.ducklake.specs.Readings.{Query, file_rows};
ghost use Rattle.ducklake.specs.Calls.{query_at, perform_reading, Promise};
ghost use Rattle.lookup.specs.DeleteFiles.{files_of};
ghost use Rattle.readings.specs.Answers.{Answered};
ghost use Rattle.row_lists.specs.Lent.{RowsLent};
ghost use Rattle.row_lists.specs.Readable.{RowsLocated, RowsReadable};
ghost use Rattle.row_lists.specs.Rows.{rows_but, deleted_by, rows_of_file, RowsFit, FileRowsLocated};

use layout::number::{CatalogId, RowId, SnapshotId, TABLE_LIMIT};
use layout::outcome::{Counts, Outcome};
use layout::refusal::Refusal;
use lookup::positions::DeleteFiles;
use readings::table::refuse_table;
use records::data_file::{data_file_record_count, data_file_row_id_start};
use refusals::checked::Checked;
use scans::deletions::find_live_delete_files;
use scans::files::is_in_table;

// The positions of the delete file at a place counted from 1; none for 0.
fn positions_deleted<'a>(deletes: DeleteFiles<'a>, place: usize) -> &'a [u64]
    requires { place ≤ deletes.n }
    ensures { result.now ≡ deleted_by deletes.entry place }
{
    if place == 0 {
        return &deletes.positions[..0];
    }
    deletes.positions_of(place - 1)
}

// Whether p is the word j.
fn is_at(words: &[u64], j: usize, p: u64) -> bool
    ensures { result ≡ (ltb j (length words.now) && eqb (get_or words.now j 0) p) }
{
    j < words.len() && words[j] == p
}

// The row numbers of a data file's positions that are not deleted fill the part: in one pass over both.
fn fill_rows(start: RowId, count: u64, deleted: &[u64], part: &mut [u64])
    requires { RowsFit start.0 count deleted.now × (length part.old ≡ length (rows_but start.0 count deleted.now)) }
    ensures { part.new ≡ rows_but start.0 count deleted.now }
{
    let mut k: usize = 0;
    let mut j: usize = 0;
    for p in 0..count {
        if is_at(deleted, j, p) {
            j += 1;
        } else {
            part[k] = start.0 + p;
            k += 1;
        }
    }
}

// How many rows the data file i has, with its delete file at a place counted from 1.
fn count_file_rows(data_files: &[u64], i: usize, deletes: DeleteFiles, place: usize) -> usize
    requires { FileRowsLocated data_files.now i deletes place }
    ensures { (result ≤ record_count_limit) × (result ≡ length (rows_of_file data_files.now i deletes.entry place)) }
{
    let count = data_file_record_count(data_files, i) as usize;
    let deleted = positions_deleted(deletes, place);
    count - deleted.len()
}

// Its rows fill the part.
fn write_file_rows(
    data_files: &[u64],
    i: usize,
    deletes: DeleteFiles,
    place: usize,
    part: &mut [u64],
)
    requires { FileRowsLocated data_files.now i deletes place × (length part.old ≡ length (rows_of_file data_files.now i deletes place)) }
    ensures { part.new ≡ rows_of_file data_files.now i deletes.entry place }
{
    let start = data_file_row_id_start(data_files, i);
    let count = data_file_record_count(data_files, i);
    let deleted = positions_deleted(deletes, place);
    fill_rows(start, count, deleted, part);
}

// How many rows the table has at s.
fn count_rows(
    data_files: &[u64],
    n: usize,
    deletes: DeleteFiles,
    places: &[usize],
    table: CatalogId,
    s: SnapshotId,
) -> usize
    requires { RowsLocated data_files.now n deletes s.0 places.now }
    ensures { result ≡ length (flat_map (file_rows (files_of deletes.entry) s.0) (data_files_at (data_files_in data_files.now n) s.0 table.0)) }
{
    let mut total: usize = 0;
    for i in 0..n {
        if is_in_table(data_files, i, table, s) {
            total += count_file_rows(data_files, i, deletes, places[i]);
        }
    }
    total
}

// The rows of each file, straight after those of the file before.
fn write_rows(
    data_files: &[u64],
    n: usize,
    deletes: DeleteFiles,
    places: &[usize],
    table: CatalogId,
    s: SnapshotId,
    area: &mut [u64],
)
    requires rows_located { RowsLocated data_files.now n deletes s.0 places.now }
    requires table_in_bounds { length (flat_map (file_rows (files_of deletes) s.0) (data_files_at (data_files_in data_files.now n) s.0 table.0))
        ≤ length area.old }
    ensures { area.new ≡ overwrite area.old 0
        (flat_map (file_rows (files_of deletes.entry) s.0) (data_files_at (data_files_in data_files.now n) s.0 table.0)) }
{
    let mut k: usize = 0;
    for i in 0..n {
        if is_in_table(data_files, i, table, s) {
            let place = places[i];
            let end = k + count_file_rows(data_files, i, deletes, place);
            write_file_rows(data_files, i, deletes, place, &mut area[k..end]);
            k = end;
        }
    }
}

// The answer of a reading of rows.
fn read_rows(
    data_files: &[u64],
    delete_files: &[u64],
    positions: &[u64],
    counts: Counts,
    table: CatalogId,
    s: SnapshotId,
    area: &mut [u64],
) -> Result<usize, Refusal>
    requires { RowsReadable data_files.now delete_files.now positions.now counts s.0 }
    ensures { Answered
        (flat_map (file_rows (delete_files_in delete_files.now positions.now counts.delete_files) s.0)
        (data_files_at (data_files_in data_files.now counts.data_files) s.0 table.0))
        area.old result area.new }
{
    let n = counts.data_files;
    let m = counts.delete_files;
    let mut places = [0usize; TABLE_LIMIT];
    find_live_delete_files(data_files, n, delete_files, m, s, &mut places);
    let mut starts = [0usize; TABLE_LIMIT];
    let deletes = DeleteFiles::located(delete_files, positions, m, &mut starts);
    let length = count_rows(data_files, n, deletes, &places, table, s);
    if area.len() < length {
        return Err(Refusal::ShortAnswerArea);
    }
    write_rows(data_files, n, deletes, &places, table, s, area);
    Ok(length)
}

// The rows of a table at a retained snapshot, of tables that were checked.
pub fn list_rows(
    checked: Checked,
    snapshots: &[u64],
    tables: &[u64],
    data_files: &[u64],
    delete_files: &[u64],
    positions: &[u64],
    counts: Counts,
    s: SnapshotId,
    table: CatalogId,
    area: &mut [u64],
) -> Outcome
    requires { RowsLent checked snapshots.now tables.now data_files.now delete_files.now positions.now counts }
    ensures { (l : RowsLent checked snapshots.now tables.now data_files.now delete_files.now
        positions.now counts)
        → Promise (perform_reading (query_at s.0 (Query.rows table.0)) l.words counts area.old) result l.words area.new }
{
    if let Err(refusal) = refuse_table(checked, snapshots, tables, counts, table, s) {
        return Outcome::refused(refusal, counts);
    }
    let answer = read_rows(data_files, delete_files, positions, counts, table, s, area);
    Outcome::answered(answer, counts)
}

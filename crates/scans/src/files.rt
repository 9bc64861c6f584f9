ghost use Rattle.std.specs.Prelude.{◌≡◌, ℕ, ◌+◌, ◌*◌, ◌≤◌, ◌<◌, length};
ghost use mathlib.Core.List.{List, flat_map, ◌∷◌, []};
ghost use Rattle.lists.specs.Runs.{overwrite};
ghost use Rattle.layout.specs.Fields.{data_file_size, delete_file_size};
ghost use Rattle.layout.specs.Words.{data_file_at, data_files_in, delete_files_in, statistics_in};
ghost use Rattle.ducklake.specs.Readings.{Query, listed};
ghost use Rattle.ducklake.specs.Calls.{query_at, perform_reading, Promise};
ghost use Rattle.readings.specs.Answers.{Answered};
ghost use Rattle.scans.specs.Deletions.{delete_id_at, DeleteFilesFound};
ghost use Rattle.scans.specs.Filters.{listed_size, in_table, is_read, files_read};
ghost use Rattle.scans.specs.Lent.{FilesLent};
ghost use Rattle.scans.specs.Readable.{FilesSelectable, FilesReadable};

use crate::deletions::{HINTS, find_live_delete_files};
use crate::filter::{Filter, file_passes, fill_filter_hints};
use layout::number::{CatalogId, FileId, SnapshotId, TABLE_LIMIT};
use layout::outcome::{Counts, Outcome};
use layout::record::DataFileRecord;
use layout::refusal::Refusal;
use lookup::life::{is_live, life_at};
use readings::table::refuse_table;
use records::data_file::{data_file_id, data_file_table};
use records::delete_file::delete_file_id;
use refusals::checked::Checked;
use runs::hints::Scale;

// A file list has so many words a file: the file's id, and the delete file's or ABSENT.
const LISTED_SIZE: usize = 2;

// Whether the data file at the place i is one of the table, live at s.
pub fn is_in_table(data_files: &[u64], i: usize, table: CatalogId, s: SnapshotId) -> bool
    requires { data_file_size * i + data_file_size ≤ length data_files.now }
    ensures { result ≡ in_table table.0 s.0 (data_file_at data_files.now i) }
{
    let holder = data_file_table(data_files, i);
    let l = life_at(data_files, DataFileRecord::SIZE, DataFileRecord::BEGIN, i);
    let live = is_live(l, s);
    (holder == table) & live
}

// Whether it is one that the filter keeps, too. The hints tell where its statistics may be.
fn is_read(
    data_files: &[u64],
    i: usize,
    statistics: &[u64],
    q: usize,
    scale: Scale,
    hints: &[u16],
    table: CatalogId,
    s: SnapshotId,
    filter: Option<Filter>,
) -> bool
    requires { FilesSelectable data_files.now (i + 1) statistics.now q }
    ensures { result ≡ is_read filter (statistics_in statistics.now q) table.0 s.0 (data_file_at data_files.now i) }
{
    if !is_in_table(data_files, i, table, s) {
        return false;
    }
    let id = data_file_id(data_files, i);
    let near = scale.hint(hints, id.0);
    file_passes(statistics, q, id, near, filter)
}

// How many files are read.
fn count_files(
    data_files: &[u64],
    n: usize,
    statistics: &[u64],
    q: usize,
    scale: Scale,
    hints: &[u16],
    table: CatalogId,
    s: SnapshotId,
    filter: Option<Filter>,
) -> usize
    requires { FilesSelectable data_files.now n statistics.now q }
    ensures { (result ≤ n)
        × (result ≡ length (files_read filter (statistics_in statistics.now q) (data_files_in data_files.now n) s.0 table.0)) }
{
    let mut k: usize = 0;
    for i in 0..n {
        if is_read(data_files, i, statistics, q, scale, hints, table, s, filter) {
            k += 1;
        }
    }
    k
}

// The id of the delete file at a place counted from 1, ABSENT for 0.
fn delete_id(delete_files: &[u64], place: usize) -> FileId
    requires { delete_file_size * place ≤ length delete_files.now }
    ensures { result.0 ≡ delete_id_at delete_files.now place }
{
    if place == 0 {
        return FileId::ABSENT;
    }
    delete_file_id(delete_files, place - 1)
}

// The two words of a file, from the word k of the answer area on.
fn write_listed(
    data_files: &[u64],
    i: usize,
    delete_files: &[u64],
    place: usize,
    area: &mut [u64],
    k: usize,
)
    requires { (data_file_size * i + data_file_size ≤ length data_files.now) × (delete_file_size * place ≤ length delete_files.now)
        × (k + listed_size ≤ length area.old) }
    ensures { area.new ≡ overwrite area.old k
        ((data_file_at data_files.now i).id ∷ delete_id_at delete_files.now place ∷ []) }
{
    let id = data_file_id(data_files, i);
    area[k] = id.0;
    let deletion = delete_id(delete_files, place);
    area[k + 1] = deletion.0;
}

// The files that are read, each with its delete file, at the front of the answer area.
fn list_files(
    data_files: &[u64],
    n: usize,
    delete_files: &[u64],
    m: usize,
    statistics: &[u64],
    q: usize,
    scale: Scale,
    hints: &[u16],
    places: &[usize],
    table: CatalogId,
    s: SnapshotId,
    filter: Option<Filter>,
    area: &mut [u64],
)
    requires files_selectable { FilesSelectable data_files.now n statistics.now q × DeleteFilesFound data_files.now n delete_files.now m s.0 places.now
        × (delete_file_size * m ≤ length delete_files.now) }
    requires table_in_bounds { listed_size * length (files_read filter (statistics_in statistics.now q) (data_files_in data_files.now n) s.0 table.0)
        ≤ length area.old }
    ensures { (positions : List ℕ) → area.new ≡ overwrite area.old 0
        (flat_map (listed (delete_files_in delete_files.now positions m) s.0)
        (files_read filter (statistics_in statistics.now q) (data_files_in data_files.now n) s.0 table.0)) }
{
    let mut k: usize = 0;
    for i in 0..n {
        if is_read(data_files, i, statistics, q, scale, hints, table, s, filter) {
            write_listed(data_files, i, delete_files, places[i], area, k);
            k += LISTED_SIZE;
        }
    }
}

// The answer of a reading of files.
pub fn read_files(
    data_files: &[u64],
    delete_files: &[u64],
    statistics: &[u64],
    counts: Counts,
    table: CatalogId,
    s: SnapshotId,
    filter: Option<Filter>,
    area: &mut [u64],
) -> Result<usize, Refusal>
    requires { FilesReadable data_files.now delete_files.now statistics.now counts }
    ensures { (positions : List ℕ) → Answered
        (flat_map (listed (delete_files_in delete_files.now positions counts.delete_files) s.0)
        (files_read filter (statistics_in statistics.now counts.statistics) (data_files_in data_files.now counts.data_files)
        s.0 table.0))
        area.old result area.new }
{
    let n = counts.data_files;
    let m = counts.delete_files;
    let q = counts.statistics;
    let mut hints = [0u16; HINTS];
    let scale = fill_filter_hints(statistics, q, filter, &mut hints);
    let k = count_files(
        data_files, n, statistics, q, scale, &hints, table, s, filter,
    );
    let length = LISTED_SIZE * k;
    if area.len() < length {
        return Err(Refusal::ShortAnswerArea);
    }
    let mut places = [0usize; TABLE_LIMIT];
    find_live_delete_files(data_files, n, delete_files, m, s, &mut places);
    list_files(
        data_files,
        n,
        delete_files,
        m,
        statistics,
        q,
        scale,
        &hints,
        &places,
        table,
        s,
        filter,
        area,
    );
    Ok(length)
}

// The files of a table at a retained snapshot, of tables that were checked.
pub fn list_table_files(
    checked: Checked,
    snapshots: &[u64],
    tables: &[u64],
    data_files: &[u64],
    delete_files: &[u64],
    statistics: &[u64],
    counts: Counts,
    s: SnapshotId,
    table: CatalogId,
    area: &mut [u64],
) -> Outcome
    requires { FilesLent checked snapshots.now tables.now data_files.now delete_files.now statistics.now counts }
    ensures { (l : FilesLent checked snapshots.now tables.now data_files.now delete_files.now
        statistics.now counts)
        → Promise (perform_reading (query_at s.0 (Query.files table.0)) l.words counts area.old) result l.words area.new }
{
    if let Err(refusal) = refuse_table(checked, snapshots, tables, counts, table, s) {
        return Outcome::refused(refusal, counts);
    }
    let answer = read_files(
        data_files,
        delete_files,
        statistics,
        counts,
        table,
        s,
        None,
        area,
    );
    Outcome::answered(answer, counts)
}

// The files of the table `diary` as text, a line each. The tables are checked once; the files are read and looked up in what was checked.
#![tactic(auto)]

ghost use Rattle.std.specs.Prelude.{◌+◌, ◌≤◌, length};
ghost use Rattle.layout.specs.Lent.{words_lent};
ghost use Rattle.paths.specs.Text.{Written};
ghost use Rattle.paths.specs.Lengths.{path_length};
ghost use Rattle.diary_session.specs.Listing.{path_of, delete_path_of, line, lines, listing};
ghost use Rattle.diary_session.specs.Room.{Room};
ghost use Rattle.diary_listing.specs.Files.{Lent};

use diary_session::DIARY;
use file_lookup::copy::copy_file;
use layout::number::{CatalogId, FileId, SnapshotId};
use layout::outcome::Counts;
use layout::record::{DataFileRecord, Uuid};
use layout::tables::Tables;
use paths::path::write_path;
use paths::text::write_bytes;
use refusals::checked::Checked;
use scans::files::list_table_files;
use soundness::checked::check;

// A file list has the ids of a data file and of its delete file, one after the other.
const LISTED_SIZE: usize = 2;

// The files as they were checked: what the check gave, the two runs that a file's record may lie in, and the counts.
#[derive(Clone, Copy)]
struct Files<'a> {
    checked: Checked,
    data_files: &'a [u64],
    delete_files: &'a [u64],
    counts: Counts,
}

// The path of a file, by the record that its id names.
fn write_file_path(files: Files, id: FileId, text: &mut [u8], at: usize) -> usize
    requires { Lent files × (at + path_length ≤ length text.old) }
    ensures { (l : Lent files.entry) → Written text.old at (path_of l.words files.entry.counts id.0) text.new result }
{
    let mut found = [0u64; DataFileRecord::SIZE];
    copy_file(
        files.checked,
        files.data_files,
        files.delete_files,
        files.counts,
        id,
        &mut found,
    );
    let uuid = Uuid {
        high: found[DataFileRecord::UUID_HIGH],
        low: found[DataFileRecord::UUID_LOW],
    };
    write_path(text, at, uuid)
}

// "path of the delete file or nothing"
fn write_delete_path(files: Files, id: FileId, text: &mut [u8], at: usize) -> usize
    requires { Lent files × ((l : Lent files) → Room text.old at (delete_path_of l.words files.counts id.0)) }
    ensures { (l : Lent files.entry) → Written text.old at (delete_path_of l.words files.entry.counts id.0) text.new result }
{
    if id == FileId::ABSENT {
        return at;
    }
    write_file_path(files, id, text, at)
}

// "path of the data file, comma, path of the delete file or nothing", and LF
fn write_line(
    files: Files,
    data_file: FileId,
    delete_file: FileId,
    text: &mut [u8],
    at: usize,
) -> usize
    requires { Lent files × ((l : Lent files) → Room text.old at (line l.words files.counts data_file.0 delete_file.0)) }
    ensures { (l : Lent files.entry)
        → Written text.old at (line l.words files.entry.counts data_file.0 delete_file.0) text.new result }
{
    let comma = write_file_path(files, data_file, text, at);
    let second = write_bytes(text, comma, b",");
    let end = write_delete_path(files, delete_file, text, second);
    write_bytes(text, end, b"\n")
}

// A line for each file of a file list.
fn write_lines(files: Files, listed: &[u64], text: &mut [u8], at: usize) -> usize
    requires { Lent files × ((l : Lent files) → Room text.old at (lines l.words files.counts listed.now)) }
    ensures { (l : Lent files.entry) → Written text.old at (lines l.words files.entry.counts listed.now) text.new result }
{
    let mut end = at;
    for k in 0..listed.len() / LISTED_SIZE {
        let data_file = FileId(listed[LISTED_SIZE * k]);
        let delete_file = FileId(listed[LISTED_SIZE * k + 1]);
        end = write_line(files, data_file, delete_file, text, end);
    }
    end
}

// "a header line, then the files at 5"
pub fn write_listing(lent: Tables, counts: Counts, area: &mut [u64], text: &mut [u8]) -> usize
    requires { Room text.old 0 (listing (words_lent lent) counts area.old) }
    ensures { Written text.old 0 (listing (words_lent lent.entry) counts area.old) text.new result }
{
    let checked = check(lent, counts);
    let listed = list_table_files(
        checked,
        lent.snapshots,
        lent.tables,
        lent.data_files,
        lent.delete_files,
        lent.statistics,
        counts,
        SnapshotId(5),
        CatalogId(DIARY),
        area,
    );
    let n = listed.length;
    let first = write_bytes(text, 0, b"data_file,delete_file\n");
    let files = Files {
        checked,
        data_files: lent.data_files,
        delete_files: lent.delete_files,
        counts,
    };
    write_lines(files, &area[..n], text, first)
}

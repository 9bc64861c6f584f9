ghost use Rattle.std.specs.Prelude.{◌+◌, ◌≤◌, length};
ghost use Rattle.lists.specs.Runs.{PartOf};
ghost use Rattle.ducklake.specs.Lookup.{lookup};
ghost use Rattle.file_lookup.specs.Parts.{FoundAt, PromisedPart};
ghost use Rattle.file_lookup.specs.Runs.{place_in, FilesById, FilesLent};

use layout::number::FileId;
use layout::outcome::Counts;
use layout::record::{DataFileRecord, DeleteFileRecord};
use layout::refusal::Refusal;
use lookup::find::{find_data_file, find_delete_file};
use refusals::checked::Checked;

// The n words of a run from the word k on.
fn part_of(run: &[u64], k: usize, n: usize) -> &[u64]
    requires { k + n ≤ length run.now }
    ensures { PartOf run.entry result k n }
{
    let e = k + n;
    &run[k..e]
}

// The record of a file id, as a part of the data files or of the delete files; or 6.
fn find_record<'a>(
    data_files: &'a [u64],
    n: usize,
    delete_files: &'a [u64],
    m: usize,
    id: FileId,
) -> Result<&'a [u64], Refusal>
    requires { FilesById data_files.now n delete_files.now m }
    ensures { FoundAt data_files.entry delete_files.entry result (place_in data_files.now n delete_files.now m id.0) }
{
    let found = find_data_file(data_files, n, id);
    if let Some(i) = found {
        return Ok(part_of(data_files, DataFileRecord::SIZE * i, DataFileRecord::SIZE));
    }
    let found = find_delete_file(delete_files, m, id);
    if let Some(i) = found {
        return Ok(part_of(
            delete_files,
            DeleteFileRecord::SIZE * i,
            DeleteFileRecord::SIZE,
        ));
    }
    Err(Refusal::NotLive)
}

// The same, of tables that were checked.
pub fn find_file<'a>(
    checked: Checked,
    data_files: &'a [u64],
    delete_files: &'a [u64],
    counts: Counts,
    id: FileId,
) -> Result<&'a [u64], Refusal>
    requires { FilesLent checked data_files.now delete_files.now counts }
    ensures { (l : FilesLent checked data_files.now delete_files.now counts)
        → PromisedPart (lookup l.words counts id.0) data_files.entry delete_files.entry result }
{
    if !checked.sound {
        return Err(Refusal::NotSound);
    }
    find_record(
        data_files,
        counts.data_files,
        delete_files,
        counts.delete_files,
        id,
    )
}

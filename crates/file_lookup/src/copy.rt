ghost use Rattle.ducklake.specs.Calls.{Promise};
ghost use Rattle.ducklake.specs.Lookup.{perform_lookup};
ghost use Rattle.readings.specs.Answers.{Answered};
ghost use Rattle.file_lookup.specs.Runs.{FilesLent};

use crate::find::find_file;
use layout::number::FileId;
use layout::outcome::{Counts, Outcome};
use layout::refusal::Refusal;
use refusals::checked::Checked;

// The answer that a part is: its words, at the front of the answer area.
// Stays: this is `copy_from_slice`, behind the test of the room.
fn copy_part(part: &[u64], area: &mut [u64]) -> Result<usize, Refusal>
    ensures { Answered part.now area.old result area.new }
{
    if area.len() < part.len() {
        return Err(Refusal::ShortAnswerArea);
    }
    area[..part.len()].copy_from_slice(part);
    Ok(part.len())
}

// The record of a file id copied into the answer area, of tables that were checked.
// Stays: the reading is called so; `copy_part` copies.
pub fn copy_file<'a>(
    checked: Checked,
    data_files: &'a [u64],
    delete_files: &'a [u64],
    counts: Counts,
    id: FileId,
    area: &mut [u64],
) -> Outcome
    requires { FilesLent checked data_files.now delete_files.now counts }
    ensures { (l : FilesLent checked data_files.now delete_files.now counts)
        → Promise (perform_lookup id.0 l.words counts area.old) result l.words area.new }
{
    match find_file(checked, data_files, delete_files, counts, id) {
        Ok(part) => Outcome::answered(copy_part(part, area), counts),
        Err(refusal) => Outcome::refused(refusal, counts),
    }
}

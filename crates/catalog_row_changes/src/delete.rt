ghost use Rattle.ducklake.specs.Commits.{delete};
ghost use Rattle.ducklake.specs.Calls.{commit_at, perform, Promised};

use layout::number::FileId;
use layout::outcome::{Counts, Outcome, Terms};
use layout::record::Uuid;
use layout::tables::Tables;
use row_deletion::delete::delete_rows;
use soundness::checked::check;

// 'Delete', a commit on these terms: positions of a data file, and the UUID of the new delete file.
#[unsafe(no_mangle)]
pub extern "C" fn catalog_delete(
    snapshots: &mut [u64],
    schemas: &mut [u64],
    schema_names: &mut [u8],
    tables: &mut [u64],
    table_names: &mut [u8],
    columns: &mut [u64],
    column_names: &mut [u8],
    data_files: &mut [u64],
    delete_files: &mut [u64],
    positions: &mut [u64],
    statistics: &mut [u64],
    scheduled: &mut [u64],
    counts: Counts,
    terms: Terms,
    data_file: FileId,
    uuid: Uuid,
    new_positions: &[u64],
    area: &mut [u64],
) -> Outcome
    ensures { Promised (perform (commit_at terms (delete data_file.0 uuid new_positions.now)))
        snapshots schemas schema_names tables table_names columns column_names data_files delete_files positions statistics scheduled
        counts area result }
{
    let lent = Tables {
        snapshots,
        schemas,
        schema_names,
        tables,
        table_names,
        columns,
        column_names,
        data_files,
        delete_files,
        positions,
        statistics,
        scheduled,
    };
    let checked = check(lent, counts);
    delete_rows(
        checked,
        snapshots,
        data_files,
        delete_files,
        positions,
        scheduled,
        counts,
        terms,
        data_file,
        uuid,
        new_positions,
    )
}

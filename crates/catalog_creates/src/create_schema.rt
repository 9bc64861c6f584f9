ghost use Rattle.ducklake.specs.Commits.{create_schema};
ghost use Rattle.ducklake.specs.Calls.{commit_at, perform, Promised};

use layout::outcome::{Counts, Outcome, Terms};
use layout::tables::Tables;
use schema_creation::create::create_schema;
use soundness::checked::check;

// 'Create schema', a commit under these terms.
#[unsafe(no_mangle)]
pub extern "C" fn catalog_create_schema(
    snapshots: &mut [u64],
    schemas: &mut [u64],
    schema_names: &mut [u8],
    tables: &mut [u64],
    table_names: &mut [u8],
    columns: &mut [u64],
    column_names: &mut [u8],
    data_files: &mut [u64],
    delete_files: &mut [u64],
    positions: &mut [u64],
    statistics: &mut [u64],
    scheduled: &mut [u64],
    counts: Counts,
    terms: Terms,
    name: &[u8],
    area: &mut [u64],
) -> Outcome
    ensures { Promised (perform (commit_at terms (create_schema name.now)))
        snapshots schemas schema_names tables table_names columns column_names data_files delete_files positions statistics scheduled
        counts area result }
{
    let lent = Tables {
        snapshots,
        schemas,
        schema_names,
        tables,
        table_names,
        columns,
        column_names,
        data_files,
        delete_files,
        positions,
        statistics,
        scheduled,
    };
    let checked = check(lent, counts);
    create_schema(
        checked,
        snapshots,
        schemas,
        schema_names,
        counts,
        terms,
        name,
    )
}

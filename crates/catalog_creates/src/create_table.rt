ghost use Rattle.ducklake.specs.Commits.{create_table};
ghost use Rattle.ducklake.specs.Calls.{commit_at, perform, Promised};

use layout::number::CatalogId;
use layout::outcome::{Counts, Outcome, Terms};
use layout::tables::Tables;
use soundness::checked::check;
use table_creation::create::create_table;

// 'Create table', a commit under these terms: the columns are two words each, type and nulls_allowed, with a name place each.
#[unsafe(no_mangle)]
pub extern "C" fn catalog_create_table(
    snapshots: &mut [u64],
    schemas: &mut [u64],
    schema_names: &mut [u8],
    tables: &mut [u64],
    table_names: &mut [u8],
    columns: &mut [u64],
    column_names: &mut [u8],
    data_files: &mut [u64],
    delete_files: &mut [u64],
    positions: &mut [u64],
    statistics: &mut [u64],
    scheduled: &mut [u64],
    counts: Counts,
    terms: Terms,
    schema: CatalogId,
    name: &[u8],
    new_columns: &[u64],
    new_column_names: &[u8],
    area: &mut [u64],
) -> Outcome
    ensures { Promised
        (perform (commit_at terms (create_table schema.0 name.now new_columns.now new_column_names.now)))
        snapshots schemas schema_names tables table_names columns column_names data_files delete_files positions statistics scheduled
        counts area result }
{
    let lent = Tables {
        snapshots,
        schemas,
        schema_names,
        tables,
        table_names,
        columns,
        column_names,
        data_files,
        delete_files,
        positions,
        statistics,
        scheduled,
    };
    let checked = check(lent, counts);
    create_table(
        checked,
        snapshots,
        schemas,
        tables,
        table_names,
        columns,
        column_names,
        counts,
        terms,
        schema,
        name,
        new_columns,
        new_column_names,
    )
}

ghost use Rattle.ducklake.specs.Commits.{drop_schema};
ghost use Rattle.ducklake.specs.Calls.{commit_at, perform, Promised};

use drops::drop::drop_schema;
use layout::number::CatalogId;
use layout::outcome::{Counts, Outcome, Terms};
use layout::tables::Tables;
use soundness::checked::check;

// 'Drop schema', a commit under these terms.
#[unsafe(no_mangle)]
pub extern "C" fn catalog_drop_schema(
    snapshots: &mut [u64],
    schemas: &mut [u64],
    schema_names: &mut [u8],
    tables: &mut [u64],
    table_names: &mut [u8],
    columns: &mut [u64],
    column_names: &mut [u8],
    data_files: &mut [u64],
    delete_files: &mut [u64],
    positions: &mut [u64],
    statistics: &mut [u64],
    scheduled: &mut [u64],
    counts: Counts,
    terms: Terms,
    schema: CatalogId,
    area: &mut [u64],
) -> Outcome
    ensures { Promised (perform (commit_at terms (drop_schema schema.0)))
        snapshots schemas schema_names tables table_names columns column_names data_files delete_files positions statistics scheduled
        counts area result }
{
    let lent = Tables {
        snapshots,
        schemas,
        schema_names,
        tables,
        table_names,
        columns,
        column_names,
        data_files,
        delete_files,
        positions,
        statistics,
        scheduled,
    };
    let checked = check(lent, counts);
    drop_schema(checked, snapshots, schemas, tables, counts, terms, schema)
}

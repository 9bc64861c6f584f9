ghost use Rattle.ducklake.specs.Commits.{insert};
ghost use Rattle.ducklake.specs.Calls.{commit_at, perform, Promised};

use layout::number::CatalogId;
use layout::outcome::{Counts, Outcome, Terms};
use layout::record::Uuid;
use layout::tables::Tables;
use row_insertion::insert::insert_rows;
use soundness::checked::check;

// 'Insert', a commit on those terms: so many rows in a file of that UUID, with its statistics.
#[unsafe(no_mangle)]
pub extern "C" fn catalog_insert(
    snapshots: &mut [u64],
    schemas: &mut [u64],
    schema_names: &mut [u8],
    tables: &mut [u64],
    table_names: &mut [u8],
    columns: &mut [u64],
    column_names: &mut [u8],
    data_files: &mut [u64],
    delete_files: &mut [u64],
    positions: &mut [u64],
    statistics: &mut [u64],
    scheduled: &mut [u64],
    counts: Counts,
    terms: Terms,
    table: CatalogId,
    record_count: u64,
    uuid: Uuid,
    new_statistics: &[u64],
    area: &mut [u64],
) -> Outcome
    ensures { Promised (perform (commit_at terms (insert table.0 record_count uuid new_statistics.now)))
        snapshots schemas schema_names tables table_names columns column_names data_files delete_files positions statistics scheduled
        counts area result }
{
    let lent = Tables {
        snapshots,
        schemas,
        schema_names,
        tables,
        table_names,
        columns,
        column_names,
        data_files,
        delete_files,
        positions,
        statistics,
        scheduled,
    };
    let checked = check(lent, counts);
    insert_rows(
        checked,
        snapshots,
        tables,
        columns,
        data_files,
        delete_files,
        statistics,
        scheduled,
        counts,
        terms,
        table,
        record_count,
        uuid,
        new_statistics,
    )
}

ghost use Rattle.layout.specs.Lent.{read_at_entry};
ghost use Rattle.ducklake.specs.Calls.{PromisedReading};
ghost use Rattle.ducklake.specs.Lookup.{lookup, perform_lookup, LookupPromise};

use file_lookup::copy::copy_file;
use file_lookup::find::find_file;
use layout::number::FileId;
use layout::outcome::{ACCEPTED, Counts, Outcome};
use layout::tables::Tables;
use soundness::checked::check;

// The record of a file id itself, as a part of the data files or of the delete files; an empty part with every refusal.
// A number beside the part and no Result: `catalog_find_file`, a public call, keeps its signature.
pub fn catalog_find_file<'a>(
    snapshots: &[u64],
    schemas: &[u64],
    schema_names: &[u8],
    tables: &[u64],
    table_names: &[u8],
    columns: &[u64],
    column_names: &[u8],
    data_files: &'a [u64],
    delete_files: &'a [u64],
    positions: &[u64],
    statistics: &[u64],
    scheduled: &[u64],
    counts: Counts,
    id: FileId,
    number: &mut u64,
) -> &'a [u64]
    ensures { LookupPromise
        (lookup (read_at_entry snapshots schemas schema_names tables table_names columns column_names data_files delete_files
        positions statistics scheduled)
        counts id.0)
        data_files.entry delete_files.entry result number.new }
{
    let lent = Tables {
        snapshots,
        schemas,
        schema_names,
        tables,
        table_names,
        columns,
        column_names,
        data_files,
        delete_files,
        positions,
        statistics,
        scheduled,
    };
    let checked = check(lent, counts);
    match find_file(checked, data_files, delete_files, counts, id) {
        Ok(part) => {
            *number = ACCEPTED;
            part
        }
        Err(refusal) => {
            *number = refusal.number();
            &data_files[0..0]
        }
    }
}

// The same record copied into the answer area: where no reference can be handed back.
#[unsafe(no_mangle)]
pub extern "C" fn catalog_copy_file<'a>(
    snapshots: &[u64],
    schemas: &[u64],
    schema_names: &[u8],
    tables: &[u64],
    table_names: &[u8],
    columns: &[u64],
    column_names: &[u8],
    data_files: &'a [u64],
    delete_files: &'a [u64],
    positions: &[u64],
    statistics: &[u64],
    scheduled: &[u64],
    counts: Counts,
    id: FileId,
    area: &mut [u64],
) -> Outcome
    ensures { PromisedReading (perform_lookup id.0)
        snapshots schemas schema_names tables table_names columns column_names data_files delete_files positions statistics scheduled
        counts area result }
{
    let lent = Tables {
        snapshots,
        schemas,
        schema_names,
        tables,
        table_names,
        columns,
        column_names,
        data_files,
        delete_files,
        positions,
        statistics,
        scheduled,
    };
    let checked = check(lent, counts);
    copy_file(checked, data_files, delete_files, counts, id, area)
}

ghost use Rattle.std.specs.Prelude.{◌≡◌, ◌+◌, ◌≤◌, length};
ghost use Rattle.layout.specs.Lent.{words_lent};
ghost use Rattle.ducklake.specs.Calls.{Promise};
ghost use Rattle.ducklake.specs.Observed.{perform_request};
ghost use Rattle.refusals.specs.Checked.{checked_of};
ghost use Rattle.call_lists.specs.Calls.{question_of};

use call_lists::part::part_of;
use call_lists::record::{
    COPIED_FILE, CallRecord, FOUND_SNAPSHOT_BY_TIME, FOUND_TABLE_BY_NAME, LISTED_COLUMNS,
    LISTED_FILES, LISTED_FILTERED_FILES, LISTED_SCHEMAS, LISTED_TABLES,
};
use column_types::to_signed;
use file_lookup::copy::copy_file;
use layout::outcome::{Counts, Outcome};
use layout::tables::Tables;
use listings::columns::list_columns;
use listings::named::find_table_by_name;
use listings::schemas::list_schemas;
use listings::tables::list_tables;
use listings::time::find_snapshot_by_time;
use refusals::checked::Checked;
use row_lists::rows::list_rows;
use scans::files::list_table_files;
use scans::filtered::list_filtered_files;

// Makes the reading that a record of a list stands for, on checked tables. Of the readings' kinds, what is left is a row list.
pub fn read(
    checked: Checked,
    lent: Tables,
    counts: Counts,
    names: &[u8],
    call: CallRecord,
    area: &mut [u64],
) -> Outcome
    requires checked_value { checked ≡ checked_of (words_lent lent) counts }
    requires length_in_bounds { call.name.start + call.name.length ≤ length names.now }
    ensures { Promise (perform_request (question_of names.now call) (words_lent lent.entry) counts area.old)
        result (words_lent lent.entry) area.new }
{
    let kind = call.kind;
    let s = call.snapshot;
    let id = call.catalog;
    match kind {
        LISTED_SCHEMAS => list_schemas(checked, lent.snapshots, lent.schemas, counts, s, area),
        LISTED_TABLES => list_tables(
            checked,
            lent.snapshots,
            lent.schemas,
            lent.tables,
            counts,
            s,
            id,
            area,
        ),
        LISTED_COLUMNS => list_columns(
            checked,
            lent.snapshots,
            lent.tables,
            lent.columns,
            counts,
            s,
            id,
            area,
        ),
        FOUND_TABLE_BY_NAME => {
            let name = part_of(names, call.name);
            find_table_by_name(
                checked,
                lent.snapshots,
                lent.schemas,
                lent.tables,
                lent.table_names,
                counts,
                s,
                id,
                name,
                area,
            )
        }
        LISTED_FILES => {
            list_table_files(
                checked,
                lent.snapshots,
                lent.tables,
                lent.data_files,
                lent.delete_files,
                lent.statistics,
                counts,
                s,
                id,
                area,
            )
        }
        LISTED_FILTERED_FILES => {
            let scalar = to_signed(call.scalar);
            list_filtered_files(
                checked,
                lent.snapshots,
                lent.tables,
                lent.columns,
                lent.data_files,
                lent.delete_files,
                lent.statistics,
                counts,
                s,
                id,
                call.column,
                scalar,
                area,
            )
        }
        FOUND_SNAPSHOT_BY_TIME => find_snapshot_by_time(
            checked,
            lent.snapshots,
            counts,
            call.time,
            area,
        ),
        COPIED_FILE => copy_file(
            checked,
            lent.data_files,
            lent.delete_files,
            counts,
            call.file,
            area,
        ),
        _ => {
            list_rows(
                checked,
                lent.snapshots,
                lent.tables,
                lent.data_files,
                lent.delete_files,
                lent.positions,
                counts,
                s,
                id,
                area,
            )
        }
    }
}

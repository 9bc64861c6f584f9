ghost use Rattle.std.specs.Prelude.{◌≡◌, true, length};
ghost use Rattle.layout.specs.Lent.{mut_lent_now};
ghost use Rattle.ducklake.specs.Calls.{Promised};
ghost use Rattle.refusals.specs.Checked.{checked_of};
ghost use Rattle.call_lists.specs.Calls.{perform_asked, asked_of, spans_fit};

use call_lists::part::part_of;
use call_lists::record::{CallRecord, EXPIRED_SNAPSHOTS, MADE_FRESH, is_reading};
use catalog_fresh::start::start;
use cleanup::clean::clean_up;
use drops::drop::{drop_schema, drop_table};
use layout::outcome::{Counts, Outcome, Terms};
use layout::record::{
    CREATED_SCHEMA, CREATED_TABLE, DELETED_FROM_TABLE, DROPPED_SCHEMA, DROPPED_TABLE,
    INSERTED_INTO_TABLE,
};
use layout::tables::Tables;
use reading_dispatch::read::read;
use refusals::checked::Checked;
use row_deletion::delete::delete_rows;
use row_insertion::insert::insert_rows;
use schema_creation::create::create_schema;
use snapshot_expiry::expire::expire_snapshots;
use table_creation::create::create_table;

// Plays what a record of a list asks for, on checked tables. A list ends before a record that asks for nothing, so that what is left is a cleanup.
// The runs one by one: the clause says of each what it holds at the end, and each operation takes only those that it reads or writes.
pub fn play(
    checked: Checked,
    snapshots: &mut [u64],
    schemas: &mut [u64],
    schema_names: &mut [u8],
    tables: &mut [u64],
    table_names: &mut [u8],
    columns: &mut [u64],
    column_names: &mut [u8],
    data_files: &mut [u64],
    delete_files: &mut [u64],
    positions: &mut [u64],
    statistics: &mut [u64],
    scheduled: &mut [u64],
    counts: Counts,
    lists: &[u64],
    names: &[u8],
    call: CallRecord,
    area: &mut [u64],
) -> Outcome
    requires checked_value { checked ≡ checked_of
        (mut_lent_now snapshots schemas schema_names tables table_names columns column_names data_files delete_files positions statistics scheduled)
        counts }
    requires call_value { spans_fit (length lists.now) (length names.now) call ≡ true }
    ensures { Promised (perform_asked (asked_of lists.now names.now call))
        snapshots schemas schema_names tables table_names columns column_names data_files delete_files positions statistics scheduled
        counts area result }
{
    let kind = call.kind;
    if is_reading(kind) {
        let lent = Tables {
            snapshots,
            schemas,
            schema_names,
            tables,
            table_names,
            columns,
            column_names,
            data_files,
            delete_files,
            positions,
            statistics,
            scheduled,
        };
        return read(checked, lent, counts, names, call, area);
    }
    let terms = Terms { time: call.time };
    match kind {
        CREATED_SCHEMA => {
            let name = part_of(names, call.name);
            create_schema(
                checked,
                snapshots,
                schemas,
                schema_names,
                counts,
                terms,
                name,
            )
        }
        CREATED_TABLE => {
            let name = part_of(names, call.name);
            let new_columns = part_of(lists, call.words);
            let new_column_names = part_of(names, call.names);
            create_table(
                checked,
                snapshots,
                schemas,
                tables,
                table_names,
                columns,
                column_names,
                counts,
                terms,
                call.catalog,
                name,
                new_columns,
                new_column_names,
            )
        }
        DROPPED_SCHEMA => {
            drop_schema(
                checked,
                snapshots,
                schemas,
                tables,
                counts,
                terms,
                call.catalog,
            )
        }
        DROPPED_TABLE => {
            drop_table(
                checked,
                snapshots,
                tables,
                columns,
                data_files,
                delete_files,
                counts,
                terms,
                call.catalog,
            )
        }
        INSERTED_INTO_TABLE => {
            let new_statistics = part_of(lists, call.words);
            insert_rows(
                checked,
                snapshots,
                tables,
                columns,
                data_files,
                delete_files,
                statistics,
                scheduled,
                counts,
                terms,
                call.catalog,
                call.record_count,
                call.uuid,
                new_statistics,
            )
        }
        DELETED_FROM_TABLE => {
            let new_positions = part_of(lists, call.words);
            delete_rows(
                checked,
                snapshots,
                data_files,
                delete_files,
                positions,
                scheduled,
                counts,
                terms,
                call.file,
                call.uuid,
                new_positions,
            )
        }
        EXPIRED_SNAPSHOTS => {
            let ids = part_of(lists, call.words);
            expire_snapshots(
                checked,
                snapshots,
                schemas,
                schema_names,
                tables,
                table_names,
                columns,
                column_names,
                data_files,
                delete_files,
                positions,
                statistics,
                scheduled,
                counts,
                ids,
                call.time,
            )
        }
        MADE_FRESH => start(
            checked.room,
            snapshots,
            schemas,
            schema_names,
            counts,
            call.time,
        ),
        _ => clean_up(checked, scheduled, counts, call.time, area),
    }
}

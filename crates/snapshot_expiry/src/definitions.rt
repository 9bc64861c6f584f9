ghost use Rattle.snapshot_expiry.specs.Written.{DefinitionsLent, DefinitionsLeft};

use expiry::remaining::Remaining;
use expiry::table::expire_named;
use layout::outcome::Counts;
use layout::record::{ColumnRecord, SchemaRecord, TableRecord};

// Of schemas, tables and columns those that are live at one of the ids that remain, with their names; the counts with how many are left.
pub fn expire_definitions(
    schemas: &mut [u64],
    schema_names: &mut [u8],
    tables: &mut [u64],
    table_names: &mut [u8],
    columns: &mut [u64],
    column_names: &mut [u8],
    counts: Counts,
    left: Remaining,
) -> Counts
    requires { DefinitionsLent schemas.old schema_names.old tables.old table_names.old columns.old column_names.old counts }
    ensures { DefinitionsLeft schemas.old schema_names.old tables.old table_names.old
        columns.old column_names.old counts left.entry.ids.now result schemas.new schema_names.new
        tables.new table_names.new columns.new column_names.new }
{
    let s = expire_named(
        schemas,
        schema_names,
        SchemaRecord::SIZE,
        SchemaRecord::BEGIN,
        counts.schemas,
        left,
    );
    let t = expire_named(
        tables,
        table_names,
        TableRecord::SIZE,
        TableRecord::BEGIN,
        counts.tables,
        left,
    );
    let c = expire_named(
        columns,
        column_names,
        ColumnRecord::SIZE,
        ColumnRecord::BEGIN,
        counts.columns,
        left,
    );
    Counts {
        schemas: s,
        tables: t,
        columns: c,
        ..counts
    }
}

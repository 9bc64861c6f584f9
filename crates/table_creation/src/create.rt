ghost use Rattle.std.specs.Prelude.{List, ℕ};
ghost use Rattle.ducklake.specs.Commits.{create_table};
ghost use Rattle.ducklake.specs.Calls.{commit_at, perform, Promise};
ghost use Rattle.table_creation.specs.Lent.{CreateTableLent, create_table_leaves};

use crate::refuse::refuse_create_table;
use crate::room::table_added;
use crate::write::write_create_table;
use layout::number::CatalogId;
use layout::outcome::{Counts, Outcome, Terms};
use refusals::checked::Checked;
use refusals::room::counts_after;

// 'Create table' on tables that were checked: refused, or written.
pub fn create_table(
    checked: Checked,
    snapshots: &mut [u64],
    schemas: &[u64],
    tables: &mut [u64],
    table_names: &mut [u8],
    columns: &mut [u64],
    column_names: &mut [u8],
    counts: Counts,
    terms: Terms,
    schema: CatalogId,
    name: &[u8],
    new_columns: &[u64],
    new_column_names: &[u8],
) -> Outcome
    requires { CreateTableLent checked snapshots.old schemas.now tables.old table_names.old columns.old column_names.old counts }
    ensures { (l : CreateTableLent checked snapshots.old schemas.now tables.old table_names.old
        columns.old column_names.old counts) (area : List ℕ)
        → Promise (perform (commit_at terms
        (create_table schema.0 name.now new_columns.now new_column_names.now)) l.words counts area) result
        (create_table_leaves l.words snapshots.new tables.new table_names.new columns.new
        column_names.new) area }
{
    if let Err(refusal) = refuse_create_table(
        checked,
        snapshots,
        schemas,
        tables,
        table_names,
        counts,
        terms,
        schema,
        name,
        new_columns,
        new_column_names,
    ) {
        return Outcome::refused(refusal, counts);
    }
    write_create_table(
        snapshots,
        tables,
        table_names,
        columns,
        column_names,
        counts,
        terms,
        schema,
        name,
        new_columns,
        new_column_names,
    );
    let added = table_added(new_columns);
    let after = counts_after(counts, added);
    Outcome::accepted(0, after)
}

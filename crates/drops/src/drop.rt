ghost use Rattle.std.specs.Prelude.{List, ℕ};
ghost use Rattle.ducklake.specs.Commits.{drop_table, drop_schema};
ghost use Rattle.ducklake.specs.Calls.{commit_at, perform, Promise};
ghost use Rattle.drops.specs.Lent.{DropSchemaLent, drop_schema_leaves, DropTableLent, drop_table_leaves};

use crate::refuse::{ONE_SNAPSHOT, refuse_drop_schema, refuse_drop_table};
use crate::write::{write_drop_schema, write_drop_table};
use layout::number::CatalogId;
use layout::outcome::{Counts, Outcome, Terms};
use refusals::checked::Checked;
use refusals::room::counts_after;

// 'Drop schema' on tables that were checked: refused, or written.
pub fn drop_schema(
    checked: Checked,
    snapshots: &mut [u64],
    schemas: &mut [u64],
    tables: &[u64],
    counts: Counts,
    terms: Terms,
    schema: CatalogId,
) -> Outcome
    requires { DropSchemaLent checked snapshots.old schemas.old tables.now counts }
    ensures { (l : DropSchemaLent checked snapshots.old schemas.old tables.now counts) (area : List ℕ)
        → Promise (perform (commit_at terms (drop_schema schema.0)) l.words counts area) result
        (drop_schema_leaves l.words snapshots.new schemas.new) area }
{
    if let Err(refusal) = refuse_drop_schema(
        checked, snapshots, schemas, tables, counts, terms, schema,
    ) {
        return Outcome::refused(refusal, counts);
    }
    write_drop_schema(snapshots, schemas, counts, terms, schema);
    let after = counts_after(counts, ONE_SNAPSHOT);
    Outcome::accepted(0, after)
}

// 'Drop table' on tables that were checked: refused, or written.
pub fn drop_table(
    checked: Checked,
    snapshots: &mut [u64],
    tables: &mut [u64],
    columns: &mut [u64],
    data_files: &mut [u64],
    delete_files: &mut [u64],
    counts: Counts,
    terms: Terms,
    table: CatalogId,
) -> Outcome
    requires { DropTableLent checked snapshots.old tables.old columns.old data_files.old delete_files.old counts }
    ensures { (l : DropTableLent checked snapshots.old tables.old columns.old data_files.old
        delete_files.old counts) (area : List ℕ)
        → Promise (perform (commit_at terms (drop_table table.0)) l.words counts area) result
        (drop_table_leaves l.words snapshots.new tables.new columns.new data_files.new
        delete_files.new) area }
{
    if let Err(refusal) = refuse_drop_table(checked, snapshots, tables, counts, terms, table) {
        return Outcome::refused(refusal, counts);
    }
    write_drop_table(
        snapshots,
        tables,
        columns,
        data_files,
        delete_files,
        counts,
        terms,
        table,
    );
    let after = counts_after(counts, ONE_SNAPSHOT);
    Outcome::accepted(0, after)
}

ghost use Rattle.std.specs.Prelude.{List, ℕ};
ghost use Rattle.ducklake.specs.Commits.{create_schema};
ghost use Rattle.ducklake.specs.Calls.{commit_at, perform, Promise};
ghost use Rattle.schema_creation.specs.Lent.{CreateSchemaLent, create_schema_leaves};

use crate::refuse::{ONE_SCHEMA, refuse_create_schema};
use crate::write::write_create_schema;
use layout::outcome::{Counts, Outcome, Terms};
use refusals::checked::Checked;
use refusals::room::counts_after;

// 'Create schema' on tables that were checked: refused, or written.
pub fn create_schema(
    checked: Checked,
    snapshots: &mut [u64],
    schemas: &mut [u64],
    schema_names: &mut [u8],
    counts: Counts,
    terms: Terms,
    name: &[u8],
) -> Outcome
    requires { CreateSchemaLent checked snapshots.old schemas.old schema_names.old counts }
    ensures { (l : CreateSchemaLent checked snapshots.old schemas.old schema_names.old counts) (area : List ℕ)
        → Promise (perform (commit_at terms (create_schema name.now)) l.words counts area) result
        (create_schema_leaves l.words snapshots.new schemas.new schema_names.new) area }
{
    if let Err(refusal) = refuse_create_schema(
        checked,
        snapshots,
        schemas,
        schema_names,
        counts,
        terms,
        name,
    ) {
        return Outcome::refused(refusal, counts);
    }
    write_create_schema(snapshots, schemas, schema_names, counts, terms, name);
    let after = counts_after(counts, ONE_SCHEMA);
    Outcome::accepted(0, after)
}

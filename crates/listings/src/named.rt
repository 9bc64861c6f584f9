ghost use Rattle.std.specs.Prelude.{◌≡◌, ◌∷◌, [], IfOk};
ghost use Rattle.layout.specs.Refusals.{number_of};
ghost use Rattle.layout.specs.Words.{load, tables_in};
ghost use Rattle.ducklake.specs.Readings.{Query};
ghost use Rattle.ducklake.specs.Calls.{query_at, perform_reading, Promise, reading_answer};
ghost use Rattle.refusals.specs.Checked.{unanswered};
ghost use Rattle.listings.specs.Lent.{NamedLent};
ghost use Rattle.listings.specs.Tests.{TablesWithNames, place_of_named};

use crate::tables::is_in_schema;
use layout::number::{CatalogId, SnapshotId};
use layout::outcome::{Counts, Outcome};
use layout::refusal::Refusal;
use lookup::live::{is_retained, schema_is_live};
use names::{is_name_argument, is_named};
use readings::answer::answer_one;
use records::table::table_id;
use refusals::checked::Checked;
use refusals::first::first_refused;

// The place of the table of a schema that bears the name at s: of the first one, and sound tables have no other.
fn find_named_table(
    tables: &[u64],
    names: &[u8],
    n: usize,
    schema: CatalogId,
    name: &[u8],
    s: SnapshotId,
) -> Option<usize>
    requires { TablesWithNames tables.now names.now n }
    ensures { result ≡ place_of_named (tables_in tables.now names.now n) s.0 schema.0 name.now }
{
    for i in 0..n {
        if is_named(names, i, name) & is_in_schema(tables, i, schema, s) {
            return Some(i);
        }
    }
    None
}

// Its id, of tables that were checked, or why there is none to read. "A badly formed name in a lookup gives 6."
fn named_table_id(
    checked: Checked,
    snapshots: &[u64],
    schemas: &[u64],
    tables: &[u64],
    names: &[u8],
    counts: Counts,
    schema: CatalogId,
    name: &[u8],
    s: SnapshotId,
) -> Result<CatalogId, Refusal>
    requires { NamedLent checked snapshots.now schemas.now tables.now names.now counts }
    ensures refusal { (l : NamedLent checked snapshots.now schemas.now tables.now names.now counts)
        → number_of result ≡ unanswered l.words counts (query_at s.0 (Query.table_named schema.0 name.now)) }
    ensures id { (l : NamedLent checked snapshots.now schemas.now tables.now names.now counts)
        → IfOk result (λ id. reading_answer (load l.words counts) (query_at s.0 (Query.table_named schema.0 name.now)) ≡ id.0 ∷ []) }
{
    if !checked.sound {
        return Err(Refusal::NotSound);
    }
    let there = is_retained(snapshots, counts.snapshots, s);
    let live = schema_is_live(schemas, counts.schemas, schema, s);
    let formed = is_name_argument(name);
    first_refused(&[
        (there, Refusal::NotRetained),
        (live, Refusal::NotLive),
        (formed, Refusal::NotLive),
    ])?;
    match find_named_table(tables, names, counts.tables, schema, name, s) {
        Some(i) => Ok(table_id(tables, i)),
        None => Err(Refusal::NotLive),
    }
}

// The table of a schema that bears a name at a retained snapshot, of tables that were checked.
pub fn find_table_by_name(
    checked: Checked,
    snapshots: &[u64],
    schemas: &[u64],
    tables: &[u64],
    names: &[u8],
    counts: Counts,
    s: SnapshotId,
    schema: CatalogId,
    name: &[u8],
    area: &mut [u64],
) -> Outcome
    requires { NamedLent checked snapshots.now schemas.now tables.now names.now counts }
    ensures { (l : NamedLent checked snapshots.now schemas.now tables.now names.now counts)
        → Promise (perform_reading (query_at s.0 (Query.table_named schema.0 name.now)) l.words counts area.old)
        result l.words area.new }
{
    let found = named_table_id(
        checked, snapshots, schemas, tables, names, counts, schema, name, s,
    );
    match found {
        Ok(id) => Outcome::answered(answer_one(id.0, area), counts),
        Err(refusal) => Outcome::refused(refusal, counts),
    }
}

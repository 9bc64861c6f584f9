ghost use Rattle.std.specs.Prelude.{◌≡◌, List, map, ℕ, ◌+◌, ◌*◌, ◌≤◌, length};
ghost use Rattle.layout.specs.Fields.{table_size};
ghost use Rattle.layout.specs.Refusals.{number_of};
ghost use Rattle.layout.specs.Words.{table_at, tables_in};
ghost use Rattle.ducklake.specs.Liveness.{tables_at};
ghost use Rattle.ducklake.specs.Readings.{Query};
ghost use Rattle.ducklake.specs.Calls.{query_at, perform_reading, Promise};
ghost use Rattle.refusals.specs.Checked.{unanswered};
ghost use Rattle.readings.specs.Answers.{Answered};
ghost use Rattle.listings.specs.Lent.{SchemasLent, TablesLent};
ghost use Rattle.listings.specs.Tests.{in_schema};

use layout::number::{CatalogId, SnapshotId};
use layout::outcome::{Counts, Outcome};
use layout::record::TableRecord;
use layout::refusal::Refusal;
use lookup::life::{is_live, life_at};
use lookup::live::{is_retained, schema_is_live};
use records::table::{table_id, table_schema};
use refusals::checked::Checked;
use refusals::first::first_refused;

// Whether the table at the place i is one of the schema, live at s.
// Stays: this and `scans::is_in_table` read records of another type each.
pub fn is_in_schema(tables: &[u64], i: usize, schema: CatalogId, s: SnapshotId) -> bool
    requires { table_size * i + table_size ≤ length tables.now }
    ensures { (names : List ℕ) → result ≡ in_schema schema.0 s.0 (table_at tables.now names i) }
{
    let holder = table_schema(tables, i);
    let l = life_at(tables, TableRecord::SIZE, TableRecord::BEGIN, i);
    let live = is_live(l, s);
    (holder == schema) & live
}

// How many tables of the schema are live at s.
fn count_tables(tables: &[u64], n: usize, schema: CatalogId, s: SnapshotId) -> usize
    requires { table_size * n ≤ length tables.now }
    ensures { (names : List ℕ) → result ≡ length (tables_at (tables_in tables.now names n) s.0 schema.0) }
{
    let mut k: usize = 0;
    for i in 0..n {
        if is_in_schema(tables, i, schema, s) {
            k += 1;
        }
    }
    k
}

// The answer of a reading of tables: their ids, by ascending id.
fn read_tables(
    tables: &[u64],
    n: usize,
    schema: CatalogId,
    s: SnapshotId,
    area: &mut [u64],
) -> Result<usize, Refusal>
    requires { table_size * n ≤ length tables.now }
    ensures { (names : List ℕ)
        → Answered (map (λ t. t.id) (tables_at (tables_in tables.now names n) s.0 schema.0)) area.old result area.new }
{
    let length = count_tables(tables, n, schema, s);
    if area.len() < length {
        return Err(Refusal::ShortAnswerArea);
    }
    let mut k: usize = 0;
    for i in 0..n {
        if is_in_schema(tables, i, schema, s) {
            area[k] = table_id(tables, i).0;
            k += 1;
        }
    }
    Ok(length)
}

// The refusal of a reading of a schema's tables, before its answer's length is known.
// Stays: `readings::refuse_table` is its twin over tables; one for both would take the test of what is read as a closure, and be no plainer.
fn refuse_tables(
    checked: Checked,
    snapshots: &[u64],
    schemas: &[u64],
    counts: Counts,
    schema: CatalogId,
    s: SnapshotId,
) -> Result<(), Refusal>
    requires { SchemasLent checked snapshots.now schemas.now counts }
    ensures { (l : SchemasLent checked snapshots.now schemas.now counts)
        → number_of result ≡ unanswered l.words counts (query_at s.0 (Query.tables schema.0)) }
{
    if !checked.sound {
        return Err(Refusal::NotSound);
    }
    let there = is_retained(snapshots, counts.snapshots, s);
    let live = schema_is_live(schemas, counts.schemas, schema, s);
    first_refused(&[(there, Refusal::NotRetained), (live, Refusal::NotLive)])
}

// The tables of a schema at a retained snapshot, of tables that were checked.
pub fn list_tables(
    checked: Checked,
    snapshots: &[u64],
    schemas: &[u64],
    tables: &[u64],
    counts: Counts,
    s: SnapshotId,
    schema: CatalogId,
    area: &mut [u64],
) -> Outcome
    requires { TablesLent checked snapshots.now schemas.now tables.now counts }
    ensures { (l : TablesLent checked snapshots.now schemas.now tables.now counts)
        → Promise (perform_reading (query_at s.0 (Query.tables schema.0)) l.words counts area.old) result l.words area.new }
{
    if let Err(refusal) = refuse_tables(checked, snapshots, schemas, counts, schema, s) {
        return Outcome::refused(refusal, counts);
    }
    let answer = read_tables(tables, counts.tables, schema, s, area);
    Outcome::answered(answer, counts)
}

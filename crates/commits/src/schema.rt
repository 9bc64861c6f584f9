ghost use Rattle.std.specs.Prelude.{◌≡◌, not, ◌&&◌, List, ℕ, ◌+◌, ◌*◌, ◌≤◌, eqb, length};
ghost use Rattle.lists.specs.Lists.{non_empty};
ghost use Rattle.layout.specs.Fields.{table_size};
ghost use Rattle.layout.specs.Words.{table_at, tables_in};
ghost use Rattle.ducklake.specs.Liveness.{live, tables_at};

use layout::number::{CatalogId, SnapshotId};
use layout::record::TableRecord;
use lookup::life::{is_live, life_at};
use records::table::table_schema;

// Whether the table i is live at s in the schema.
#[tactic(auto, unfolding(ducklake::specs::Liveness::live, lists::specs::Runs::field))]
fn table_is_in(tables: &[u64], i: usize, schema: CatalogId, s: SnapshotId) -> bool
    requires { table_size * i + table_size ≤ length tables.now }
    ensures { (names : List ℕ) → result ≡ (eqb (table_at tables.now names i).body.schema schema.0
        && live s.0 (table_at tables.now names i)) }
{
    let l = life_at(tables, TableRecord::SIZE, TableRecord::BEGIN, i);
    let live = is_live(l, s);
    let of = table_schema(tables, i);
    (of == schema) & live
}

// "11 schema not empty": whether no table of the schema is live at s.
pub fn schema_is_empty(tables: &[u64], n: usize, schema: CatalogId, s: SnapshotId) -> bool
    requires { table_size * n ≤ length tables.now }
    ensures { (names : List ℕ) → result ≡ not (non_empty (tables_at (tables_in tables.now names n) s.0 schema.0)) }
{
    for i in 0..n {
        let held = table_is_in(tables, i, schema, s);
        if held {
            return false;
        }
    }
    true
}

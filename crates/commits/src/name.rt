ghost use Rattle.std.specs.Prelude.{◌≡◌, not, ◌&&◌, ◌<◌, eqb};
ghost use Rattle.lists.specs.Lists.{any};
ghost use Rattle.layout.specs.Fields.{schema_size, table_size};
ghost use Rattle.layout.specs.Names.{padded};
ghost use Rattle.layout.specs.Words.{schema_at, schemas_in, table_at, tables_in};
ghost use Rattle.ducklake.specs.Arguments.{clashes};
ghost use Rattle.ducklake.specs.Liveness.{live, schemas_at, tables_at};
ghost use Rattle.commits.specs.LentRecords.{WithNames};

use layout::number::{CatalogId, SnapshotId};
use layout::record::{SchemaRecord, TableRecord};
use lookup::life::{is_live, life_at};
use names::is_named;
use records::table::table_schema;

// Whether the schema i is live at s and has the name.
#[tactic(auto, using(lists::proofs::Runs::record_fits), unfolding(ducklake::specs::Arguments::clashes, ducklake::specs::Liveness::live, lists::specs::Runs::field))]
fn schema_takes_name(
    schemas: &[u64],
    names: &[u8],
    n: usize,
    i: usize,
    s: SnapshotId,
    name: &[u8],
) -> bool
    requires { WithNames schema_size schemas.now names.now n × (i < n) }
    ensures { result ≡ (clashes (schema_at schemas.now names.now i).body.name (padded name.now)
        && live s.0 (schema_at schemas.now names.now i)) }
{
    let l = life_at(schemas, SchemaRecord::SIZE, SchemaRecord::BEGIN, i);
    let live = is_live(l, s);
    let same = is_named(names, i, name);
    same & live
}

// "10 name taken by a live one": whether no schema that is live at s has the name.
pub fn schema_name_is_free(
    schemas: &[u64],
    names: &[u8],
    n: usize,
    s: SnapshotId,
    name: &[u8],
) -> bool
    requires { WithNames schema_size schemas.now names.now n }
    ensures { result ≡ not (any (λ v. clashes v.body.name (padded name.now))
        (schemas_at (schemas_in schemas.now names.now n) s.0)) }
{
    !(0..n).any(|i| schema_takes_name(schemas, names, n, i, s, name))
}

// Whether the table i is live at s in the schema and has the name.
#[tactic(auto, using(lists::proofs::Runs::record_fits), unfolding(ducklake::specs::Arguments::clashes, ducklake::specs::Liveness::live, lists::specs::Runs::field))]
fn table_takes_name(
    tables: &[u64],
    names: &[u8],
    n: usize,
    i: usize,
    schema: CatalogId,
    s: SnapshotId,
    name: &[u8],
) -> bool
    requires { WithNames table_size tables.now names.now n × (i < n) }
    ensures { result ≡ (clashes (table_at tables.now names.now i).body.name (padded name.now)
        && (eqb (table_at tables.now names.now i).body.schema schema.0
        && live s.0 (table_at tables.now names.now i))) }
{
    let l = life_at(tables, TableRecord::SIZE, TableRecord::BEGIN, i);
    let live = is_live(l, s);
    let of = table_schema(tables, i);
    let same = is_named(names, i, name);
    same & ((of == schema) & live)
}

// Whether no table of the schema that is live at s has the name.
pub fn table_name_is_free(
    tables: &[u64],
    names: &[u8],
    n: usize,
    schema: CatalogId,
    s: SnapshotId,
    name: &[u8],
) -> bool
    requires { WithNames table_size tables.now names.now n }
    ensures { result ≡ not (any (λ v. clashes v.body.name (padded name.now))
        (tables_at (tables_in tables.now names.now n) s.0 schema.0)) }
{
    !(0..n).any(|i| table_takes_name(tables, names, n, i, schema, s, name))
}

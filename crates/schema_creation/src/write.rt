ghost use Rattle.std.specs.Prelude.{◌≡◌, true};
ghost use Rattle.layout.specs.Fields.{schema_size};
ghost use Rattle.layout.specs.Words.{Words, load, store, fits};
ghost use Rattle.ducklake.specs.Commits.{create_schema};
ghost use Rattle.ducklake.specs.Calls.{commit_at, effect};
ghost use Rattle.commits.specs.Written.{SnapshotRoom, NamedRoom};
ghost use Rattle.schema_creation.specs.Lent.{create_schema_leaves};

use commits::append::{append_schema, append_snapshot};
use layout::outcome::{Counts, Terms};
use layout::record::CREATED_SCHEMA;
use lookup::find::latest_snapshot;

// 'Create schema' in the runs that it changes: the new snapshot, the new schema and its name.
pub fn write_create_schema(
    snapshots: &mut [u64],
    schemas: &mut [u64],
    schema_names: &mut [u8],
    counts: Counts,
    terms: Terms,
    name: &[u8],
)
    requires { SnapshotRoom snapshots.old counts.snapshots 1 0 × NamedRoom schema_size schemas.old schema_names.old counts.schemas name.now }
    ensures { (w : Words) → fits w counts ≡ true → w.snapshots ≡ snapshots.old → w.schemas ≡ schemas.old
        → w.schema_names ≡ schema_names.old
        → create_schema_leaves w snapshots.new schemas.new schema_names.new
        ≡ store w counts (effect (load w counts) (commit_at terms (create_schema name.now))) }
{
    let latest = latest_snapshot(snapshots, counts.snapshots);
    let id = latest.next_catalog_id;
    let begin = append_snapshot(
        snapshots,
        counts.snapshots,
        terms.time,
        CREATED_SCHEMA,
        id,
        1,
        0,
    );
    append_schema(schemas, schema_names, counts.schemas, id, begin, name);
}

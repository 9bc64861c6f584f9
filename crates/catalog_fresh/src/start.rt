ghost use Rattle.std.specs.Prelude.{◌≡◌, List, ℕ};
ghost use Rattle.layout.specs.Words.{Words, store};
ghost use Rattle.ducklake.specs.Commits.{fresh_catalog};
ghost use Rattle.ducklake.specs.Calls.{no_counts, perform_fresh, Promise};
ghost use Rattle.catalog_fresh.specs.Lent.{FreshLent, FreshRoom, fresh_leaves};

use layout::kind::ChangeKind;
use layout::number::{CatalogId, FileId, SnapshotId};
use layout::outcome::{Counts, Outcome};
use layout::record::{SchemaRecord, SnapshotRecord};
use layout::refusal::Refusal;
use names::write_name;
use records::schema::write_schema;
use records::snapshot::write_snapshot;
use refusals::room::is_within;

// The counts of a fresh catalogue.
const FRESH: Counts = Counts {
    snapshots: 1,
    schemas: 1,
    tables: 0,
    columns: 0,
    data_files: 0,
    delete_files: 0,
    positions: 0,
    statistics: 0,
    scheduled: 0,
};

// "snapshot 0, schema_version 0, next_catalog_id 1, next_file_id 0, kind 1, object 0; schema 0 `main`, begin 0"
fn write_fresh(snapshots: &mut [u64], schemas: &mut [u64], schema_names: &mut [u8], time: u64)
    requires { FreshRoom snapshots.old schemas.old schema_names.old }
    ensures { (w : Words) → w.snapshots ≡ snapshots.old → w.schemas ≡ schemas.old → w.schema_names ≡ schema_names.old
        → fresh_leaves w snapshots.new schemas.new schema_names.new ≡ store w no_counts (fresh_catalog time) }
{
    write_snapshot(
        snapshots,
        0,
        SnapshotRecord {
            id: SnapshotId(0),
            time,
            schema_version: 0,
            next_catalog_id: CatalogId(1),
            next_file_id: FileId(0),
            kind: u64::from(ChangeKind::CreatedSchema),
            object: CatalogId(0),
        },
    );
    write_schema(
        schemas,
        0,
        SchemaRecord {
            id: CatalogId(0),
            begin: SnapshotId(0),
            end: SnapshotId::ABSENT,
        },
    );
    write_name(schema_names, 0, b"main");
}

// Fresh on tables with this room: refused, or written.
pub fn start(
    room: Counts,
    snapshots: &mut [u64],
    schemas: &mut [u64],
    schema_names: &mut [u8],
    counts: Counts,
    time: u64,
) -> Outcome
    requires { FreshLent room snapshots.old schemas.old schema_names.old }
    ensures { (l : FreshLent room snapshots.old schemas.old schema_names.old) (area : List ℕ)
        → Promise (perform_fresh time l.words counts area) result
        (fresh_leaves l.words snapshots.new schemas.new schema_names.new) area }
{
    let held = is_within(FRESH, room);
    if !held {
        return Outcome::refused(Refusal::NoRoom, counts);
    }
    write_fresh(snapshots, schemas, schema_names, time);
    Outcome::accepted(0, FRESH)
}

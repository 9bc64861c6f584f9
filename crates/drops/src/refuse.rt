ghost use Rattle.std.specs.Prelude.{◌≡◌, true, ℕ};
ghost use Rattle.layout.specs.Refusals.{number_of};
ghost use Rattle.layout.specs.Words.{Words};
ghost use Rattle.ducklake.specs.Commits.{drop_table, drop_schema};
ghost use Rattle.ducklake.specs.Calls.{commit_at, refusal};
ghost use Rattle.refusals.specs.Checked.{checked_of};
ghost use Rattle.drops.specs.DropRoom.{DropSchemaChecked, DropTableChecked};

use commits::number::{next_snapshot, snapshot_fits};
use commits::schema::schema_is_empty;
use commits::time::is_in_time;
use layout::number::CatalogId;
use layout::outcome::{Counts, Terms};
use layout::record::{DROPPED_SCHEMA, DROPPED_TABLE};
use layout::refusal::Refusal;
use lookup::find::latest_snapshot;
use lookup::live::{schema_is_live, table_is_live};
use refusals::checked::Checked;
use refusals::first::first_refused;
use refusals::room::has_room;

// What a drop adds.
pub const ONE_SNAPSHOT: Counts = Counts {
    snapshots: 1,
    schemas: 0,
    tables: 0,
    columns: 0,
    data_files: 0,
    delete_files: 0,
    positions: 0,
    statistics: 0,
    scheduled: 0,
};

// The refusal of 'drop schema' on tables that were checked: of its tests, in the definition's order, the first that isn't passed.
pub fn refuse_drop_schema(
    checked: Checked,
    snapshots: &[u64],
    schemas: &[u64],
    tables: &[u64],
    counts: Counts,
    terms: Terms,
    schema: CatalogId,
) -> Result<(), Refusal>
    requires { checked.sound ≡ true → DropSchemaChecked snapshots.now schemas.now tables.now counts }
    ensures { (w : Words) → w.snapshots ≡ snapshots.now → w.schemas ≡ schemas.now → w.tables ≡ tables.now
        → checked ≡ checked_of w counts → (m : ℕ) → number_of result ≡ refusal w counts m (commit_at terms (drop_schema schema.0)) }
{
    if !checked.sound {
        return Err(Refusal::NotSound);
    }
    let latest = latest_snapshot(snapshots, counts.snapshots);
    let live = schema_is_live(schemas, counts.schemas, schema, latest.id);
    let in_time = is_in_time(latest, terms.time);
    let empty = schema_is_empty(tables, counts.tables, schema, latest.id);
    let next = next_snapshot(latest, terms.time, DROPPED_SCHEMA, schema, 0, 0);
    let fits = snapshot_fits(next);
    let room = has_room(checked.room, counts, ONE_SNAPSHOT);
    first_refused(&[
        (live, Refusal::NotLive),
        (in_time, Refusal::TimeFalls),
        (empty, Refusal::SchemaNotEmpty),
        (fits, Refusal::NumberTooLarge),
        (room, Refusal::NoRoom),
    ])
}

// The refusal of 'drop table' on tables that were checked.
pub fn refuse_drop_table(
    checked: Checked,
    snapshots: &[u64],
    tables: &[u64],
    counts: Counts,
    terms: Terms,
    table: CatalogId,
) -> Result<(), Refusal>
    requires { checked.sound ≡ true → DropTableChecked snapshots.now tables.now counts }
    ensures { (w : Words) → w.snapshots ≡ snapshots.now → w.tables ≡ tables.now
        → checked ≡ checked_of w counts → (m : ℕ) → number_of result ≡ refusal w counts m (commit_at terms (drop_table table.0)) }
{
    if !checked.sound {
        return Err(Refusal::NotSound);
    }
    let latest = latest_snapshot(snapshots, counts.snapshots);
    let live = table_is_live(tables, counts.tables, table, latest.id);
    let in_time = is_in_time(latest, terms.time);
    let next = next_snapshot(latest, terms.time, DROPPED_TABLE, table, 0, 0);
    let fits = snapshot_fits(next);
    let room = has_room(checked.room, counts, ONE_SNAPSHOT);
    first_refused(&[
        (live, Refusal::NotLive),
        (in_time, Refusal::TimeFalls),
        (fits, Refusal::NumberTooLarge),
        (room, Refusal::NoRoom),
    ])
}

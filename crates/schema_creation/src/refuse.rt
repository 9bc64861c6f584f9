ghost use Rattle.std.specs.Prelude.{◌≡◌, true, ℕ};
ghost use Rattle.layout.specs.Fields.{schema_size};
ghost use Rattle.layout.specs.Refusals.{number_of};
ghost use Rattle.layout.specs.Words.{Words};
ghost use Rattle.ducklake.specs.Commits.{create_schema};
ghost use Rattle.ducklake.specs.Calls.{commit_at, refusal};
ghost use Rattle.call_laws.specs.Latest.{HasLatest};
ghost use Rattle.refusals.specs.Checked.{checked_of};
ghost use Rattle.commits.specs.LentRecords.{WithNames};

use commits::name::schema_name_is_free;
use commits::number::{next_snapshot, snapshot_fits};
use commits::time::is_in_time;
use layout::outcome::{Counts, Terms};
use layout::record::CREATED_SCHEMA;
use layout::refusal::Refusal;
use lookup::find::latest_snapshot;
use names::is_name_argument;
use refusals::checked::Checked;
use refusals::first::first_refused;
use refusals::room::has_room;

// What 'create schema' adds.
pub const ONE_SCHEMA: Counts = Counts {
    snapshots: 1,
    schemas: 1,
    tables: 0,
    columns: 0,
    data_files: 0,
    delete_files: 0,
    positions: 0,
    statistics: 0,
    scheduled: 0,
};

// The refusal of 'create schema' on tables that were checked: of its tests, in the definition's order, the first that isn't passed.
pub fn refuse_create_schema(
    checked: Checked,
    snapshots: &[u64],
    schemas: &[u64],
    schema_names: &[u8],
    counts: Counts,
    terms: Terms,
    name: &[u8],
) -> Result<(), Refusal>
    requires { checked.sound ≡ true
        → HasLatest snapshots.now counts.snapshots × WithNames schema_size schemas.now schema_names.now counts.schemas }
    ensures { (w : Words) → w.snapshots ≡ snapshots.now → w.schemas ≡ schemas.now
        → w.schema_names ≡ schema_names.now → checked ≡ checked_of w counts
        → (m : ℕ) → number_of result ≡ refusal w counts m (commit_at terms (create_schema name.now)) }
{
    if !checked.sound {
        return Err(Refusal::NotSound);
    }
    let latest = latest_snapshot(snapshots, counts.snapshots);
    let in_time = is_in_time(latest, terms.time);
    let named = is_name_argument(name);
    let free = schema_name_is_free(schemas, schema_names, counts.schemas, latest.id, name);
    let next = next_snapshot(
        latest,
        terms.time,
        CREATED_SCHEMA,
        latest.next_catalog_id,
        1,
        0,
    );
    let fits = snapshot_fits(next);
    let room = has_room(checked.room, counts, ONE_SCHEMA);
    first_refused(&[
        (in_time, Refusal::TimeFalls),
        (named, Refusal::BadName),
        (free, Refusal::NameTaken),
        (fits, Refusal::NumberTooLarge),
        (room, Refusal::NoRoom),
    ])
}

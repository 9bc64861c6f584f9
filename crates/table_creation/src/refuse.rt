ghost use Rattle.std.specs.Prelude.{◌≡◌, true, ℕ};
ghost use Rattle.layout.specs.Refusals.{number_of};
ghost use Rattle.layout.specs.Words.{Words};
ghost use Rattle.ducklake.specs.Commits.{create_table};
ghost use Rattle.ducklake.specs.Calls.{commit_at, refusal};
ghost use Rattle.refusals.specs.Checked.{checked_of};
ghost use Rattle.table_creation.specs.TableRoom.{TableChecked};

use crate::columns::columns_fit;
use crate::room::table_added;
use commits::name::table_name_is_free;
use commits::number::{next_snapshot, snapshot_fits};
use commits::time::is_in_time;
use layout::number::CatalogId;
use layout::outcome::{Counts, Terms};
use layout::record::CREATED_TABLE;
use layout::refusal::Refusal;
use lookup::find::latest_snapshot;
use lookup::live::schema_is_live;
use names::is_name_argument;
use refusals::checked::Checked;
use refusals::first::first_refused;
use refusals::room::has_room;

// The refusal of 'create table' on tables that were checked: of its tests, in the definition's order, the first that isn't passed.
pub fn refuse_create_table(
    checked: Checked,
    snapshots: &[u64],
    schemas: &[u64],
    tables: &[u64],
    table_names: &[u8],
    counts: Counts,
    terms: Terms,
    schema: CatalogId,
    name: &[u8],
    new_columns: &[u64],
    new_column_names: &[u8],
) -> Result<(), Refusal>
    requires { checked.sound ≡ true → TableChecked snapshots.now schemas.now tables.now table_names.now counts }
    ensures { (w : Words) → w.snapshots ≡ snapshots.now → w.schemas ≡ schemas.now → w.tables ≡ tables.now
        → w.table_names ≡ table_names.now → checked ≡ checked_of w counts → (m : ℕ) → number_of result ≡ refusal w counts m
        (commit_at terms (create_table schema.0 name.now new_columns.now new_column_names.now)) }
{
    if !checked.sound {
        return Err(Refusal::NotSound);
    }
    let latest = latest_snapshot(snapshots, counts.snapshots);
    let live = schema_is_live(schemas, counts.schemas, schema, latest.id);
    let in_time = is_in_time(latest, terms.time);
    let named = is_name_argument(name);
    let free = table_name_is_free(tables, table_names, counts.tables, schema, latest.id, name);
    let formed = columns_fit(new_columns, new_column_names);
    let next = next_snapshot(
        latest,
        terms.time,
        CREATED_TABLE,
        latest.next_catalog_id,
        1,
        0,
    );
    let fits = snapshot_fits(next);
    let added = table_added(new_columns);
    let room = has_room(checked.room, counts, added);
    first_refused(&[
        (live, Refusal::NotLive),
        (in_time, Refusal::TimeFalls),
        (named, Refusal::BadName),
        (free, Refusal::NameTaken),
        (formed, Refusal::BadColumns),
        (fits, Refusal::NumberTooLarge),
        (room, Refusal::NoRoom),
    ])
}

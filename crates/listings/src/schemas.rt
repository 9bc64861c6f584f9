ghost use Rattle.std.specs.Prelude.{◌≡◌, List, map, ℕ, ◌*◌, ◌≤◌, length};
ghost use Rattle.layout.specs.Fields.{schema_size};
ghost use Rattle.layout.specs.Refusals.{number_of};
ghost use Rattle.layout.specs.Words.{schemas_in};
ghost use Rattle.ducklake.specs.Liveness.{schemas_at};
ghost use Rattle.ducklake.specs.Readings.{Query};
ghost use Rattle.ducklake.specs.Calls.{query_at, perform_reading, Promise};
ghost use Rattle.refusals.specs.Checked.{unanswered};
ghost use Rattle.readings.specs.Answers.{Answered};
ghost use Rattle.listings.specs.Lent.{SnapshotsLent, SchemasLent};

use crate::lives::{count_live, is_live_at};
use layout::number::SnapshotId;
use layout::outcome::{Counts, Outcome};
use layout::record::SchemaRecord;
use layout::refusal::Refusal;
use lookup::live::is_retained;
use records::schema::schema_id;
use refusals::checked::Checked;
use refusals::first::first_refused;

// The answer of a reading of schemas: their ids, by ascending id.
// Stays: one for this and `read_tables` would take closures for the count, the test and the id, and be no plainer.
fn read_schemas(
    schemas: &[u64],
    n: usize,
    s: SnapshotId,
    area: &mut [u64],
) -> Result<usize, Refusal>
    requires { schema_size * n ≤ length schemas.now }
    ensures { (names : List ℕ)
        → Answered (map (λ v. v.id) (schemas_at (schemas_in schemas.now names n) s.0)) area.old result area.new }
{
    let length = count_live(schemas, SchemaRecord::SIZE, SchemaRecord::BEGIN, 0, n, s);
    if area.len() < length {
        return Err(Refusal::ShortAnswerArea);
    }
    let mut k: usize = 0;
    for i in 0..n {
        if is_live_at(schemas, SchemaRecord::SIZE, SchemaRecord::BEGIN, i, s) {
            area[k] = schema_id(schemas, i).0;
            k += 1;
        }
    }
    Ok(length)
}

// The refusal of a reading of schemas, before its answer's length is known.
fn refuse_schemas(
    checked: Checked,
    snapshots: &[u64],
    counts: Counts,
    s: SnapshotId,
) -> Result<(), Refusal>
    requires { SnapshotsLent checked snapshots.now counts }
    ensures { (l : SnapshotsLent checked snapshots.now counts) → number_of result ≡ unanswered l.words counts (query_at s.0 Query.schemas) }
{
    if !checked.sound {
        return Err(Refusal::NotSound);
    }
    let there = is_retained(snapshots, counts.snapshots, s);
    first_refused(&[(there, Refusal::NotRetained)])
}

// The schemas at a retained snapshot, of tables that were checked.
pub fn list_schemas(
    checked: Checked,
    snapshots: &[u64],
    schemas: &[u64],
    counts: Counts,
    s: SnapshotId,
    area: &mut [u64],
) -> Outcome
    requires { SchemasLent checked snapshots.now schemas.now counts }
    ensures { (l : SchemasLent checked snapshots.now schemas.now counts)
        → Promise (perform_reading (query_at s.0 Query.schemas) l.words counts area.old) result l.words area.new }
{
    if let Err(refusal) = refuse_schemas(checked, snapshots, counts, s) {
        return Outcome::refused(refusal, counts);
    }
    let answer = read_schemas(schemas, counts.schemas, s, area);
    Outcome::answered(answer, counts)
}

ghost use Rattle.std.specs.Prelude.{◌≡◌, ◌∷◌, [], IfOk};
ghost use Rattle.layout.specs.Refusals.{number_of};
ghost use Rattle.layout.specs.Words.{load};
ghost use Rattle.ducklake.specs.Calls.{by_time, perform_reading, Promise, reading_answer};
ghost use Rattle.refusals.specs.Checked.{unanswered};
ghost use Rattle.listings.specs.Lent.{SnapshotsLent};

use layout::number::SnapshotId;
use layout::outcome::{Counts, Outcome};
use layout::refusal::Refusal;
use lookup::find::latest_by;
use readings::answer::answer_one;
use records::snapshot::snapshot_id;
use refusals::checked::Checked;

// The id of the latest snapshot at or before t, of tables that were checked, or why there is none to read.
fn latest_id_by(
    checked: Checked,
    snapshots: &[u64],
    counts: Counts,
    t: u64,
) -> Result<SnapshotId, Refusal>
    requires { SnapshotsLent checked snapshots.now counts }
    ensures refusal { (l : SnapshotsLent checked snapshots.now counts)
        → number_of result ≡ unanswered l.words counts (by_time t) }
    ensures id { (l : SnapshotsLent checked snapshots.now counts)
        → IfOk result (λ id. reading_answer (load l.words counts) (by_time t) ≡ id.0 ∷ []) }
{
    if !checked.sound {
        return Err(Refusal::NotSound);
    }
    match latest_by(snapshots, counts.snapshots, t) {
        Some(i) => Ok(snapshot_id(snapshots, i)),
        None => Err(Refusal::NoSnapshotByThen),
    }
}

// The latest snapshot at or before a time, of tables that were checked.
pub fn find_snapshot_by_time(
    checked: Checked,
    snapshots: &[u64],
    counts: Counts,
    t: u64,
    area: &mut [u64],
) -> Outcome
    requires { SnapshotsLent checked snapshots.now counts }
    ensures { (l : SnapshotsLent checked snapshots.now counts)
        → Promise (perform_reading (by_time t) l.words counts area.old) result l.words area.new }
{
    match latest_id_by(checked, snapshots, counts, t) {
        Ok(id) => Outcome::answered(answer_one(id.0, area), counts),
        Err(refusal) => Outcome::refused(refusal, counts),
    }
}

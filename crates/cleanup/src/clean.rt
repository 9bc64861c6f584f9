ghost use Rattle.ducklake.specs.Calls.{clean_up, perform, Promise};
ghost use Rattle.cleanup.specs.Lent.{CleanupLent, cleanup_leaves};

use crate::due::{hand_out, remove_due};
use crate::refuse::refuse_cleanup;
use layout::outcome::{Counts, Outcome};
use refusals::checked::Checked;

// Cleanup on tables that were checked: refused, or what is due is handed out and removed.
pub fn clean_up(
    checked: Checked,
    scheduled: &mut [u64],
    counts: Counts,
    t: u64,
    area: &mut [u64],
) -> Outcome
    requires { CleanupLent checked scheduled.old counts }
    ensures { (l : CleanupLent checked scheduled.old counts)
        → Promise (perform (clean_up t) l.words counts area.old) result (cleanup_leaves l.words scheduled.new) area.new }
{
    if let Err(refusal) = refuse_cleanup(checked, scheduled, counts, t, area.len()) {
        return Outcome::refused(refusal, counts);
    }
    let length = hand_out(scheduled, counts.scheduled, t, area);
    let left = remove_due(scheduled, counts.scheduled, t);
    let after = Counts {
        scheduled: left,
        ..counts
    };
    Outcome::accepted(length, after)
}

ghost use Rattle.std.specs.Prelude.{◌≡◌, true};
ghost use Rattle.layout.specs.Refusals.{number_of};
ghost use Rattle.layout.specs.Words.{Words};
ghost use Rattle.ducklake.specs.Calls.{clean_up, refusal};
ghost use Rattle.refusals.specs.Checked.{checked_of};
ghost use Rattle.cleanup.specs.Handed.{ScheduledLent};

use crate::due::count_due;
use layout::number::HANDED_SIZE;
use layout::outcome::Counts;
use layout::refusal::Refusal;
use refusals::checked::Checked;

// The refusal of a cleanup on tables that were checked, with an answer area of so many words. Records only go, so there is always room.
pub fn refuse_cleanup(
    checked: Checked,
    scheduled: &[u64],
    counts: Counts,
    t: u64,
    area_length: usize,
) -> Result<(), Refusal>
    requires { checked.sound ≡ true → ScheduledLent scheduled.now counts.scheduled }
    ensures { (w : Words) → w.scheduled ≡ scheduled.now → checked ≡ checked_of w counts
        → number_of result ≡ refusal w counts area_length (clean_up t) }
{
    if !checked.sound {
        return Err(Refusal::NotSound);
    }
    let due = count_due(scheduled, counts.scheduled, t);
    if area_length < HANDED_SIZE * due {
        return Err(Refusal::ShortAnswerArea);
    }
    Ok(())
}

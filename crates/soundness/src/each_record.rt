// The lines that look at each record by itself.
ghost use Rattle.std.specs.Prelude.{◌≡◌, true};
ghost use Rattle.layout.specs.Lent.{words_lent};
ghost use Rattle.layout.specs.Words.{capacity, within};
ghost use Rattle.soundness.specs.Told.{Tells};

use crate::line::{FIELDS_LINE, LIVES_LINE, NEXT_IDS_LINE, ORDER_LINE, SNAPSHOTS_LINE, SOUND};
use layout::outcome::Counts;
use layout::tables::Tables;
use runs::hints::Scale;
use soundness_fields::order::ids_ascend;
use soundness_fields::ranges::fields_in_range;
use soundness_fields::snapshots::snapshots_rise;
use soundness_lives::lives::lives_sound;
use soundness_unique::files::ids_below_next;

// The first of these lines that doesn't hold, or 0, where the counts have room. A test relies on those before it. The hints tell where snapshots may be.
pub fn records_unsound(lent: Tables, counts: Counts, scale: Scale, hints: &[u16]) -> u64
    requires { within counts (capacity (words_lent lent)) ≡ true }
    ensures { Tells (words_lent lent.entry) counts result }
{
    let fields = fields_in_range(lent, counts);
    if !fields {
        return FIELDS_LINE;
    }
    let rise = snapshots_rise(lent.snapshots, counts.snapshots);
    if !rise {
        return SNAPSHOTS_LINE;
    }
    let lives = lives_sound(
        lent.snapshots,
        lent.schemas,
        lent.tables,
        lent.columns,
        lent.data_files,
        lent.delete_files,
        counts,
        scale,
        hints,
    );
    if !lives {
        return LIVES_LINE;
    }
    let ascend = ids_ascend(
        lent.schemas,
        lent.tables,
        lent.columns,
        lent.data_files,
        lent.delete_files,
        lent.statistics,
        counts,
    );
    if !ascend {
        return ORDER_LINE;
    }
    let below = ids_below_next(
        lent.snapshots,
        lent.schemas,
        lent.tables,
        lent.data_files,
        lent.delete_files,
        lent.scheduled,
        counts,
    );
    if !below {
        return NEXT_IDS_LINE;
    }
    SOUND
}

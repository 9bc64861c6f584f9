ghost use Rattle.std.specs.Prelude.{◌≡◌};
ghost use Rattle.layout.specs.Lent.{words_lent};
ghost use Rattle.refusals.specs.Checked.{checked_of};
ghost use Rattle.catalog_player.specs.Lasting.{Lasting};

use chaining::chained::is_chained;
use layout::outcome::Counts;
use layout::tables::Tables;
use refusals::checked::Checked;
use soundness::checked::check;

// What is known of the tables: what the check gave, and whether they are sound and chained, so that it holds from call to call.
// Stays: no Option of the first, since what the check gave is also used where it does not last.
#[derive(Clone, Copy)]
pub struct Judged {
    pub checked: Checked,
    pub lasting: bool,
}

// Judges the tables, unless what was known of them lasts.
pub fn judge(known: Judged, lent: Tables, counts: Counts) -> Judged
    requires { Lasting known (words_lent lent) counts }
    ensures { (result.checked ≡ checked_of (words_lent lent.entry) counts) × Lasting result (words_lent lent.entry) counts }
{
    if known.lasting {
        return known;
    }
    let checked = check(lent, counts);
    if !checked.sound {
        return Judged {
            checked,
            lasting: false,
        };
    }
    let lasting = is_chained(lent.data_files, lent.delete_files, counts);
    Judged { checked, lasting }
}

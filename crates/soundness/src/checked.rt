ghost use Rattle.std.specs.Prelude.{◌≡◌};
ghost use Rattle.layout.specs.Lent.{words_lent};
ghost use Rattle.refusals.specs.Checked.{checked_of};

use crate::check::first_unsound;
use crate::line::SOUND;
use layout::outcome::Counts;
use layout::tables::Tables;
use refusals::checked::Checked;
use refusals::room::capacity;

// The check that every call begins with: the tables sound or not, and their room.
pub fn check(lent: Tables, counts: Counts) -> Checked
    ensures { result ≡ checked_of (words_lent lent.entry) counts }
{
    let room = capacity(lent);
    let line = first_unsound(lent, counts);
    Checked {
        sound: line == SOUND,
        room,
    }
}

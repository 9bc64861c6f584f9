ghost use Rattle.std.specs.Prelude.{◌≡◌};
ghost use Rattle.layout.specs.Refusals.{number_of};
ghost use Rattle.ducklake.specs.Readings.{Query};
ghost use Rattle.ducklake.specs.Calls.{query_at};
ghost use Rattle.refusals.specs.Checked.{unanswered};
ghost use Rattle.readings.specs.Lent.{TableLent};

use layout::number::{CatalogId, SnapshotId};
use layout::outcome::Counts;
use layout::refusal::Refusal;
use lookup::live::{is_retained, table_is_live};
use refusals::checked::Checked;
use refusals::first::first_refused;

// The refusal of a reading of a table's columns, files or rows, before its answer's length is known.
pub fn refuse_table(
    checked: Checked,
    snapshots: &[u64],
    tables: &[u64],
    counts: Counts,
    table: CatalogId,
    s: SnapshotId,
) -> Result<(), Refusal>
    requires { TableLent checked snapshots.now tables.now counts }
    ensures { (l : TableLent checked snapshots.now tables.now counts)
        → number_of result ≡ unanswered l.words counts (query_at s.0 (Query.files table.0)) }
{
    if !checked.sound {
        return Err(Refusal::NotSound);
    }
    let there = is_retained(snapshots, counts.snapshots, s);
    let live = table_is_live(tables, counts.tables, table, s);
    first_refused(&[(there, Refusal::NotRetained), (live, Refusal::NotLive)])
}

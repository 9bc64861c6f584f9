ghost use Rattle.std.specs.Prelude.{◌≡◌, List, ℕ};
ghost use Rattle.layout.specs.Lent.{at_entry, at_exit, mut_lent_now};
ghost use Rattle.layout.specs.Words.{load, store, counts_of};
ghost use Rattle.ducklake.specs.Refusals.{accepted};
ghost use Rattle.ducklake.specs.Calls.{effect, expire_snapshots, perform, Promise, refusal};
ghost use Rattle.refusals.specs.Checked.{checked_of};

use crate::definitions::expire_definitions;
use crate::files::expire_files;
use expiry::refuse::refuse_expiry;
use expiry::remaining::Remaining;
use expiry::table::expire_listed;
use layout::number::TABLE_LIMIT;
use layout::outcome::{Counts, Outcome};
use refusals::checked::Checked;

// The writes of an expiry that is not refused; the counts after it. They stand in a function of their own, since it zeroes the words for ids where it
// begins: behind the way out of the refusals they were zeroed twice.
fn write_expiry(
    snapshots: &mut [u64],
    schemas: &mut [u64],
    schema_names: &mut [u8],
    tables: &mut [u64],
    table_names: &mut [u8],
    columns: &mut [u64],
    column_names: &mut [u8],
    data_files: &mut [u64],
    delete_files: &mut [u64],
    positions: &mut [u64],
    statistics: &mut [u64],
    scheduled: &mut [u64],
    counts: Counts,
    ids: &[u64],
    time: u64,
) -> Counts
    requires { accepted ≡ refusal
        (mut_lent_now snapshots schemas schema_names tables table_names columns column_names data_files delete_files positions statistics scheduled)
        counts 0 (expire_snapshots ids.now time) }
    ensures after_effect { result ≡ counts_of (effect
        (load (at_entry snapshots schemas schema_names tables table_names columns column_names data_files delete_files positions statistics scheduled)
        counts) (expire_snapshots ids.now time)) }
    ensures stored { at_exit snapshots schemas schema_names tables table_names columns column_names data_files delete_files positions statistics scheduled
        ≡ store (at_entry snapshots schemas schema_names tables table_names columns column_names data_files delete_files positions statistics scheduled)
        counts (effect
        (load (at_entry snapshots schemas schema_names tables table_names columns column_names data_files delete_files positions statistics scheduled)
        counts) (expire_snapshots ids.now time)) }
{
    let mut left = [0u64; TABLE_LIMIT];
    let left = Remaining::unlisted(snapshots, counts.snapshots, ids, &mut left);
    let n = expire_listed(snapshots, counts.snapshots, ids);
    let d = expire_definitions(
        schemas,
        schema_names,
        tables,
        table_names,
        columns,
        column_names,
        counts,
        left,
    );
    let f = expire_files(
        data_files,
        delete_files,
        positions,
        statistics,
        scheduled,
        counts,
        left,
        time,
    );
    Counts {
        snapshots: n,
        schemas: d.schemas,
        tables: d.tables,
        columns: d.columns,
        data_files: f.data_files,
        delete_files: f.delete_files,
        positions: f.positions,
        statistics: f.statistics,
        scheduled: f.scheduled,
    }
}

// Expiry on tables that were checked: refused, or written.
pub fn expire_snapshots(
    checked: Checked,
    snapshots: &mut [u64],
    schemas: &mut [u64],
    schema_names: &mut [u8],
    tables: &mut [u64],
    table_names: &mut [u8],
    columns: &mut [u64],
    column_names: &mut [u8],
    data_files: &mut [u64],
    delete_files: &mut [u64],
    positions: &mut [u64],
    statistics: &mut [u64],
    scheduled: &mut [u64],
    counts: Counts,
    ids: &[u64],
    time: u64,
) -> Outcome
    requires { checked ≡ checked_of
        (mut_lent_now snapshots schemas schema_names tables table_names columns column_names data_files delete_files positions statistics scheduled)
        counts }
    ensures { (area : List ℕ) → Promise (perform (expire_snapshots ids.now time)
        (at_entry snapshots schemas schema_names tables table_names columns column_names data_files delete_files positions statistics scheduled)
        counts area) result
        (at_exit snapshots schemas schema_names tables table_names columns column_names data_files delete_files positions statistics scheduled)
        area }
{
    if let Err(refusal) = refuse_expiry(checked, snapshots, data_files, delete_files, counts, ids) {
        return Outcome::refused(refusal, counts);
    }
    let after = write_expiry(
        snapshots,
        schemas,
        schema_names,
        tables,
        table_names,
        columns,
        column_names,
        data_files,
        delete_files,
        positions,
        statistics,
        scheduled,
        counts,
        ids,
        time,
    );
    Outcome::accepted(0, after)
}

ghost use Rattle.std.specs.Prelude.{List, ℕ};
ghost use Rattle.ducklake.specs.Commits.{insert};
ghost use Rattle.ducklake.specs.Calls.{commit_at, perform, Promise};
ghost use Rattle.row_insertion.specs.Lent.{InsertLent, insert_leaves};

use crate::refuse::{insert_adds, refuse_insert};
use crate::write::write_insert;
use layout::number::CatalogId;
use layout::outcome::{Counts, Outcome, Terms};
use layout::record::Uuid;
use refusals::checked::Checked;
use refusals::room::counts_after;

// 'Insert' on tables that were checked: refused, or written.
pub fn insert_rows(
    checked: Checked,
    snapshots: &mut [u64],
    tables: &mut [u64],
    columns: &[u64],
    data_files: &mut [u64],
    delete_files: &[u64],
    statistics: &mut [u64],
    scheduled: &[u64],
    counts: Counts,
    terms: Terms,
    table: CatalogId,
    record_count: u64,
    uuid: Uuid,
    new_statistics: &[u64],
) -> Outcome
    requires { InsertLent checked snapshots.old tables.old columns.now data_files.old delete_files.now statistics.old
        scheduled.now counts }
    ensures { (l : InsertLent checked snapshots.old tables.old columns.now data_files.old
        delete_files.now statistics.old scheduled.now counts) (area : List ℕ)
        → Promise (perform (commit_at terms (insert table.0 record_count uuid new_statistics.now)) l.words counts area) result
        (insert_leaves l.words snapshots.new tables.new data_files.new statistics.new) area }
{
    if let Err(refusal) = refuse_insert(
        checked,
        snapshots,
        tables,
        columns,
        data_files,
        delete_files,
        scheduled,
        counts,
        terms,
        table,
        record_count,
        uuid,
        new_statistics,
    ) {
        return Outcome::refused(refusal, counts);
    }
    write_insert(
        snapshots,
        tables,
        data_files,
        statistics,
        counts,
        terms,
        table,
        record_count,
        uuid,
        new_statistics,
    );
    let added = insert_adds(new_statistics);
    let after = counts_after(counts, added);
    Outcome::accepted(0, after)
}

ghost use Rattle.std.specs.Prelude.{◌≡◌, List, ℕ, ℤ};
ghost use Rattle.layout.specs.Refusals.{number_of};
ghost use Rattle.layout.specs.Words.{columns_in};
ghost use Rattle.ducklake.specs.Liveness.{column_live};
ghost use Rattle.ducklake.specs.Readings.{Query};
ghost use Rattle.ducklake.specs.Calls.{query_at, perform_reading, Promise};
ghost use Rattle.lookup.specs.Order.{ColumnsByTable};
ghost use Rattle.refusals.specs.Checked.{unanswered};
ghost use Rattle.readings.specs.Lent.{ColumnsLent};
ghost use Rattle.scans.specs.Lent.{FilteredLent};

use crate::files::read_files;
use crate::filter::Filter;
use layout::number::{CatalogId, SnapshotId};
use layout::outcome::{Counts, Outcome};
use layout::record::ColumnRecord;
use layout::refusal::Refusal;
use lookup::block::columns_of;
use lookup::life::{is_live, life_at};
use lookup::live::{is_retained, table_is_live};
use records::column::column_id;
use refusals::checked::Checked;
use refusals::first::first_refused;

// Whether a column of the table is live at s.
fn column_is_live(columns: &[u64], n: usize, table: CatalogId, column: u64, s: SnapshotId) -> bool
    requires { ColumnsByTable columns.now n }
    ensures { (names : List ℕ) → result ≡ column_live (columns_in columns.now names n) s.0 table.0 column }
{
    let block = columns_of(columns, n, table);
    for i in block.start..block.end {
        let id = column_id(columns, i);
        let l = life_at(columns, ColumnRecord::SIZE, ColumnRecord::BEGIN, i);
        let live = is_live(l, s);
        if (id == column) & live {
            return true;
        }
    }
    false
}

// The refusal of a reading filtered by a column, before its answer's length is known: the table is judged first, then the column.
fn refuse_column(
    checked: Checked,
    snapshots: &[u64],
    tables: &[u64],
    columns: &[u64],
    counts: Counts,
    table: CatalogId,
    column: u64,
    s: SnapshotId,
) -> Result<(), Refusal>
    requires { ColumnsLent checked snapshots.now tables.now columns.now counts }
    ensures { (l : ColumnsLent checked snapshots.now tables.now columns.now counts)
        → (scalar : ℤ) → number_of result ≡ unanswered l.words counts (query_at s.0 (Query.filtered_files table.0 column scalar)) }
{
    if !checked.sound {
        return Err(Refusal::NotSound);
    }
    let there = is_retained(snapshots, counts.snapshots, s);
    let live = table_is_live(tables, counts.tables, table, s);
    let known = column_is_live(columns, counts.columns, table, column, s);
    first_refused(&[
        (there, Refusal::NotRetained),
        (live, Refusal::NotLive),
        (known, Refusal::NotLive),
    ])
}

// The files of a table at a retained snapshot that its statistics keep for `column = scalar`, of tables that were checked.
pub fn list_filtered_files(
    checked: Checked,
    snapshots: &[u64],
    tables: &[u64],
    columns: &[u64],
    data_files: &[u64],
    delete_files: &[u64],
    statistics: &[u64],
    counts: Counts,
    s: SnapshotId,
    table: CatalogId,
    column: u64,
    scalar: i64,
    area: &mut [u64],
) -> Outcome
    requires { FilteredLent checked snapshots.now tables.now columns.now data_files.now delete_files.now statistics.now counts }
    ensures { (l : FilteredLent checked snapshots.now tables.now columns.now data_files.now
        delete_files.now statistics.now counts)
        → Promise (perform_reading (query_at s.0 (Query.filtered_files table.0 column scalar)) l.words counts area.old)
        result l.words area.new }
{
    if let Err(refusal) = refuse_column(
        checked, snapshots, tables, columns, counts, table, column, s,
    ) {
        return Outcome::refused(refusal, counts);
    }
    let answer = read_files(
        data_files,
        delete_files,
        statistics,
        counts,
        table,
        s,
        Some(Filter { column, scalar }),
        area,
    );
    Outcome::answered(answer, counts)
}

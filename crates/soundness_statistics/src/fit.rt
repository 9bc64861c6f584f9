// The statistics of one column of one file: in the tables, and in the call that inserts the file.
ghost use Rattle.std.specs.Prelude.{◌≡◌, ℕ, List};
ghost use Rattle.layout.specs.Catalog.{column_of, statistics_of};
ghost use Rattle.ducklake.specs.Liveness.{live};
ghost use Rattle.ducklake.specs.Soundness.{bound_fits, statistics_fit};

use column_types::{bound_at_most, in_type, to_signed};
use layout::number::SnapshotId;
use layout::record::{ColumnRecord, StatisticsRecord};
use lookup::life::{Life, is_live};

// Whether a file that begins at s has statistics of the column: "each column live at its begin".
#[tactic(auto, unfolding(ducklake::specs::Liveness::live))]
pub fn statistics_wanted(column: ColumnRecord, s: SnapshotId) -> bool
    ensures { (name : List ℕ) → result ≡ live s.0 (column_of column name) }
{
    let begin = column.begin;
    let end = column.end;
    is_live(Life { begin, end }, s)
}

// A bound: its flag, and "0 where the flag is 0"; "Given values lie in the type's range".
#[tactic(auto, unfolding(ducklake::specs::Soundness::bound_fits))]
pub fn bound_fits(type_code: u64, flag: u64, word: u64) -> bool
    ensures { result ≡ bound_fits type_code flag word }
{
    let v = to_signed(word);
    let ranged = in_type(type_code, v);
    ((flag == 0) & (word == 0)) | ((flag == 1) & ranged)
}

// The statistics of a column in a file of so many rows: "null_count ≤ record_count, and 0 where nulls aren't allowed. If all rows are null, min
// and max are missing; else either may be missing. Given values lie in the type's range, min ≤ max."
#[tactic(auto, unfolding(ducklake::specs::Soundness::statistics_fit))]
pub fn statistics_fit(rows: u64, column: ColumnRecord, x: StatisticsRecord) -> bool
    ensures { (name : List ℕ) → result ≡ statistics_fit rows (column_of column name) (statistics_of x) }
{
    let low = bound_fits(column.type_code, x.has_min, x.min);
    let high = bound_fits(column.type_code, x.has_max, x.max);
    let ordered = bound_at_most(column.type_code, x.min, x.max);
    (x.column == column.id)
        & (x.null_count <= rows)
        & ((column.nulls_allowed == 1) | (x.null_count == 0))
        & ((x.null_count < rows) | ((x.has_min == 0) & (x.has_max == 0)))
        & low
        & high
        & ((x.has_min == 0) | (x.has_max == 0) | ordered)
}

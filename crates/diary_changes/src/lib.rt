// The diary session of document 01, its other three calls up to time 150.
#![tactic(auto)]

ghost use Rattle.ducklake.specs.Calls.{Promised};
ghost use Rattle.diary_session.specs.Session.{ended};

use catalog_row_changes::delete::catalog_delete;
use catalog_row_changes::insert::catalog_insert;
use diary_session::{DIARY, ITEM, PRICE};
use layout::number::{CatalogId, FileId, STATISTICS_ARGUMENT_SIZE};
use layout::outcome::{Counts, Outcome, Terms};
use layout::record::Uuid;

// The columns `item` and `price`.
const COLUMNS: usize = 2;

// The statistics of two rows: of each column its id, how many nulls, that both bounds are given, and the bounds.
const TWO_ROWS: [u64; COLUMNS * STATISTICS_ARGUMENT_SIZE] = [
    ITEM, 0, 1, 1, 4, 5, PRICE, 1, 1, 1, 20, 20,
];

// The positions that are deleted first, and then.
const POSITION_ONE: [u64; 1] = [1];

const POSITION_ZERO: [u64; 1] = [0];

// "130: 2 rows, item 4 to 5, price 20 to 20, one null. 140: delete position 1 of file 0. 150: delete position 0 of file 0."
// The runs one by one: the calls of the C interface take them so.
pub fn end_session(
    snapshots: &mut [u64],
    schemas: &mut [u64],
    schema_names: &mut [u8],
    tables: &mut [u64],
    table_names: &mut [u8],
    columns: &mut [u64],
    column_names: &mut [u8],
    data_files: &mut [u64],
    delete_files: &mut [u64],
    positions: &mut [u64],
    statistics: &mut [u64],
    scheduled: &mut [u64],
    counts: Counts,
    area: &mut [u64],
) -> Outcome
    ensures { Promised ended
        snapshots schemas schema_names tables table_names columns column_names data_files delete_files positions statistics scheduled
        counts area result }
{
    let two = catalog_insert(
        snapshots,
        schemas,
        schema_names,
        tables,
        table_names,
        columns,
        column_names,
        data_files,
        delete_files,
        positions,
        statistics,
        scheduled,
        counts,
        Terms { time: 130 },
        CatalogId(DIARY),
        2,
        Uuid { high: 0, low: 2 },
        &TWO_ROWS,
        area,
    );
    let one = catalog_delete(
        snapshots,
        schemas,
        schema_names,
        tables,
        table_names,
        columns,
        column_names,
        data_files,
        delete_files,
        positions,
        statistics,
        scheduled,
        two.counts,
        Terms { time: 140 },
        FileId(0),
        Uuid { high: 0, low: 3 },
        &POSITION_ONE,
        area,
    );
    catalog_delete(
        snapshots,
        schemas,
        schema_names,
        tables,
        table_names,
        columns,
        column_names,
        data_files,
        delete_files,
        positions,
        statistics,
        scheduled,
        one.counts,
        Terms { time: 150 },
        FileId(0),
        Uuid { high: 0, low: 4 },
        &POSITION_ZERO,
        area,
    )
}

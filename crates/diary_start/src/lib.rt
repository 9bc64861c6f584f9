// The diary session of document 01, its first three calls.
#![tactic(auto)]

ghost use Rattle.ducklake.specs.Calls.{Promised};
ghost use Rattle.diary_session.specs.Session.{begun};

use catalog_creates::create_table::catalog_create_table;
use catalog_fresh::fresh::catalog_fresh;
use catalog_row_changes::insert::catalog_insert;
use diary_session::{DIARY, ITEM, PRICE};
use layout::number::{COLUMN_ARGUMENT_SIZE, CatalogId, NAME_SIZE, STATISTICS_ARGUMENT_SIZE};
use layout::outcome::{Counts, Outcome, Terms};
use layout::record::Uuid;
use names::write_name;

// `item` int64 without nulls, `price` int64 with: how many columns, a type and whether nulls are allowed.
const COLUMNS: usize = 2;

const INT64: u64 = 4;

const WITHOUT_NULLS: u64 = 0;

const WITH_NULLS: u64 = 1;

const NEW_COLUMNS: [u64; COLUMNS * COLUMN_ARGUMENT_SIZE] = [
    INT64,
    WITHOUT_NULLS,
    INT64,
    WITH_NULLS,
];

// The statistics of three rows: of each column its id, how many nulls, that both bounds are given, and the bounds.
const THREE_ROWS: [u64; COLUMNS * STATISTICS_ARGUMENT_SIZE] = [
    ITEM, 0, 1, 1, 1, 3, PRICE, 0, 1, 1, 9, 14,
];

// "Fresh at time 100. 110: table `diary` in schema 0, `item` int64 without nulls, `price` int64 with. 120: 3 rows, item 1 to 3, price 9 to 14, no nulls."
// The runs one by one: the calls of the C interface take them so.
pub fn begin_session(
    snapshots: &mut [u64],
    schemas: &mut [u64],
    schema_names: &mut [u8],
    tables: &mut [u64],
    table_names: &mut [u8],
    columns: &mut [u64],
    column_names: &mut [u8],
    data_files: &mut [u64],
    delete_files: &mut [u64],
    positions: &mut [u64],
    statistics: &mut [u64],
    scheduled: &mut [u64],
    counts: Counts,
    area: &mut [u64],
) -> Outcome
    ensures { Promised begun
        snapshots schemas schema_names tables table_names columns column_names data_files delete_files positions statistics scheduled
        counts area result }
{
    let fresh = catalog_fresh(
        snapshots,
        schemas,
        schema_names,
        tables,
        table_names,
        columns,
        column_names,
        data_files,
        delete_files,
        positions,
        statistics,
        scheduled,
        counts,
        100,
        area,
    );
    let mut new_names = [0u8; COLUMNS * NAME_SIZE];
    write_name(&mut new_names, 0, b"item");
    write_name(&mut new_names, 1, b"price");
    let created = catalog_create_table(
        snapshots,
        schemas,
        schema_names,
        tables,
        table_names,
        columns,
        column_names,
        data_files,
        delete_files,
        positions,
        statistics,
        scheduled,
        fresh.counts,
        Terms { time: 110 },
        CatalogId(0),
        b"diary",
        &NEW_COLUMNS,
        &new_names,
        area,
    );
    catalog_insert(
        snapshots,
        schemas,
        schema_names,
        tables,
        table_names,
        columns,
        column_names,
        data_files,
        delete_files,
        positions,
        statistics,
        scheduled,
        created.counts,
        Terms { time: 120 },
        CatalogId(DIARY),
        3,
        Uuid { high: 0, low: 1 },
        &THREE_ROWS,
        area,
    )
}

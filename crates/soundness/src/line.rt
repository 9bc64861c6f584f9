// The lines of document 01's 'Sound tables', by number; the limit of columns, which stands above them, comes last.
// Stays: the C interface hands these numbers out as they are.

// Every line holds.
pub const SOUND: u64 = 0;

// Used counts fit the lent lengths and the limits; every field is in its range; padding is zero.
pub const FIELDS_LINE: u64 = 1;

// At least one snapshot; snapshot ids ascend strictly; times, schema versions and next ids never fall; change kinds are known.
pub const SNAPSHOTS_LINE: u64 = 2;

// Begins and ends are at most the latest snapshot id; begin < end; every record is live at some retained snapshot.
pub const LIVES_LINE: u64 = 3;

// Ids ascend strictly in each table.
pub const ORDER_LINE: u64 = 4;

// Ids are below the next ids; no file id or UUID occurs twice.
pub const NEXT_IDS_LINE: u64 = 5;

// Lives lie within those that they belong to.
pub const NESTING_LINE: u64 = 6;

// Names, and orders of columns, differ where lives overlap.
pub const NAMES_LINE: u64 = 7;

// Delete files of a data file follow each other, and hold positions of its rows.
pub const DELETES_LINE: u64 = 8;

// Row ranges ascend with the file id and end at or below next_row_id.
pub const ROWS_LINE: u64 = 9;

// A statistics record for each column of each file, and no other, with values that fit.
pub const STATISTICS_LINE: u64 = 10;

// A table has 1 to 16 live columns.
pub const COLUMNS_LINE: u64 = 11;

// The standard's four counters, a type each: a file number is never taken for a row number.
#[repr(C)]
#[derive(Clone, Copy, PartialEq, Eq, PartialOrd, Ord)]
pub struct SnapshotId(pub u64);

impl SnapshotId {
    // An end that is not set.
    pub const ABSENT: SnapshotId = SnapshotId(ABSENT);
}

// Schemas and tables.
#[repr(C)]
#[derive(Clone, Copy, PartialEq, Eq, PartialOrd, Ord)]
pub struct CatalogId(pub u64);

// Data files and delete files.
#[repr(C)]
#[derive(Clone, Copy, PartialEq, Eq, PartialOrd, Ord)]
pub struct FileId(pub u64);

impl FileId {
    // No file.
    pub const ABSENT: FileId = FileId(ABSENT);
}

#[repr(C)]
#[derive(Clone, Copy, PartialEq, Eq, PartialOrd, Ord)]
pub struct RowId(pub u64);

// An end that is not set.
pub const ABSENT: u64 = 18446744073709551615;

// Ids, next ids, row numbers, column orders and schema versions are at most this.
pub const NUMBER_LIMIT: u64 = 4611686018427387904;

// A table uses at most so many records, and all delete files together so many positions.
pub const TABLE_LIMIT: usize = 4096;

pub const POSITION_LIMIT: usize = 65536;

// A data file has 1 to so many rows.
pub const RECORD_COUNT_LIMIT: u64 = 1048576;

// A table has 1 to so many live columns.
pub const COLUMN_LIMIT: usize = 16;

// A name lies in a place of so many bytes.
pub const NAME_SIZE: usize = 32;

// The arguments that are lists: a column has so many words beside its name, and the statistics of a column so many.
pub const COLUMN_ARGUMENT_SIZE: usize = 2;

pub const STATISTICS_ARGUMENT_SIZE: usize = 6;

// What a cleanup hands out of a file: its id and its UUID's two words.
pub const HANDED_SIZE: usize = 3;

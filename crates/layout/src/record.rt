use crate::number::{CatalogId, FileId, RowId, SnapshotId};

// The records of the lent tables, fields in the order of their words. Names and positions lie in runs of their own.
#[repr(C)]
#[derive(Clone, Copy, PartialEq, Eq)]
pub struct Uuid {
    pub high: u64,
    pub low: u64,
}

#[derive(Clone, Copy)]
pub struct SnapshotRecord {
    pub id: SnapshotId,
    pub time: u64,
    pub schema_version: u64,
    pub next_catalog_id: CatalogId,
    pub next_file_id: FileId,
    pub kind: u64,
    pub object: CatalogId,
}

impl SnapshotRecord {
    pub const SIZE: usize = 7;

    pub const ID: usize = 0;

    pub const TIME: usize = 1;

    pub const SCHEMA_VERSION: usize = 2;

    pub const NEXT_CATALOG_ID: usize = 3;

    pub const NEXT_FILE_ID: usize = 4;

    pub const KIND: usize = 5;

    pub const OBJECT: usize = 6;
}

// The kinds of change that a snapshot records.
// Stays: a lent word may be none of these numbers (`kind::ChangeKind` is the enum), and `commits::number::next_snapshot` promises
// its answer of any number.
pub const CREATED_SCHEMA: u64 = 1;

pub const CREATED_TABLE: u64 = 2;

pub const INSERTED_INTO_TABLE: u64 = 3;

pub const DELETED_FROM_TABLE: u64 = 4;

pub const DROPPED_SCHEMA: u64 = 6;

pub const DROPPED_TABLE: u64 = 7;

#[derive(Clone, Copy)]
pub struct SchemaRecord {
    pub id: CatalogId,
    pub begin: SnapshotId,
    pub end: SnapshotId,
}

impl SchemaRecord {
    pub const SIZE: usize = 3;

    pub const ID: usize = 0;

    pub const BEGIN: usize = 1;

    pub const END: usize = 2;
}

#[derive(Clone, Copy)]
pub struct TableRecord {
    pub id: CatalogId,
    pub begin: SnapshotId,
    pub end: SnapshotId,
    pub schema: CatalogId,
    pub next_row_id: RowId,
}

impl TableRecord {
    pub const SIZE: usize = 5;

    pub const ID: usize = 0;

    pub const BEGIN: usize = 1;

    pub const END: usize = 2;

    pub const SCHEMA: usize = 3;

    pub const NEXT_ROW_ID: usize = 4;
}

#[derive(Clone, Copy)]
pub struct ColumnRecord {
    pub id: u64,
    pub table: CatalogId,
    pub begin: SnapshotId,
    pub end: SnapshotId,
    pub order: u64,
    pub type_code: u64,
    pub nulls_allowed: u64,
}

impl ColumnRecord {
    pub const SIZE: usize = 7;

    pub const ID: usize = 0;

    pub const TABLE: usize = 1;

    pub const BEGIN: usize = 2;

    pub const END: usize = 3;

    pub const ORDER: usize = 4;

    pub const TYPE_CODE: usize = 5;

    pub const NULLS_ALLOWED: usize = 6;
}

#[derive(Clone, Copy)]
pub struct DataFileRecord {
    pub id: FileId,
    pub table: CatalogId,
    pub begin: SnapshotId,
    pub end: SnapshotId,
    pub record_count: u64,
    pub row_id_start: RowId,
    pub uuid: Uuid,
}

impl DataFileRecord {
    pub const SIZE: usize = 8;

    pub const ID: usize = 0;

    pub const TABLE: usize = 1;

    pub const BEGIN: usize = 2;

    pub const END: usize = 3;

    pub const RECORD_COUNT: usize = 4;

    pub const ROW_ID_START: usize = 5;

    pub const UUID_HIGH: usize = 6;

    pub const UUID_LOW: usize = 7;
}

#[derive(Clone, Copy)]
pub struct DeleteFileRecord {
    pub id: FileId,
    pub table: CatalogId,
    pub begin: SnapshotId,
    pub end: SnapshotId,
    pub data_file: FileId,
    pub delete_count: u64,
    pub uuid: Uuid,
}

impl DeleteFileRecord {
    pub const SIZE: usize = 8;

    pub const ID: usize = 0;

    pub const TABLE: usize = 1;

    pub const BEGIN: usize = 2;

    pub const END: usize = 3;

    pub const DATA_FILE: usize = 4;

    pub const DELETE_COUNT: usize = 5;

    pub const UUID_HIGH: usize = 6;

    pub const UUID_LOW: usize = 7;
}

#[derive(Clone, Copy)]
pub struct StatisticsRecord {
    pub data_file: FileId,
    pub column: u64,
    pub null_count: u64,
    pub has_min: u64,
    pub has_max: u64,
    pub min: u64,
    pub max: u64,
}

impl StatisticsRecord {
    pub const SIZE: usize = 7;

    pub const DATA_FILE: usize = 0;

    pub const COLUMN: usize = 1;

    pub const NULL_COUNT: usize = 2;

    pub const HAS_MIN: usize = 3;

    pub const HAS_MAX: usize = 4;

    pub const MIN: usize = 5;

    pub const MAX: usize = 6;
}

#[derive(Clone, Copy)]
pub struct ScheduledRecord {
    pub file: FileId,
    pub uuid: Uuid,
    pub schedule_start: u64,
}

impl ScheduledRecord {
    pub const SIZE: usize = 4;

    pub const FILE: usize = 0;

    pub const UUID_HIGH: usize = 1;

    pub const UUID_LOW: usize = 2;

    pub const SCHEDULE_START: usize = 3;
}

// The catalogue record: how many records of each table, and how many positions, are used.
#[repr(C)]
#[derive(Clone, Copy)]
pub struct Counts {
    pub snapshots: usize,
    pub schemas: usize,
    pub tables: usize,
    pub columns: usize,
    pub data_files: usize,
    pub delete_files: usize,
    pub positions: usize,
    pub statistics: usize,
    pub scheduled: usize,
}

// What a commit is made under: its time.
#[repr(C)]
#[derive(Clone, Copy)]
pub struct Terms {
    pub time: u64,
}

// What a call gives: 0 or the refusal's number, its place, the answer's length in words, the catalogue record.
#[repr(C)]
#[derive(Clone, Copy)]
pub struct Outcome {
    pub number: u64,
    pub place: u64,
    pub length: usize,
    pub counts: Counts,
}

// Stays: the C header and Rust hosts take these numbers from here (`refusal::Refusal` is the enum). That of an accepted call,
// and those of refusals, by who causes them: the host,
pub const ACCEPTED: u64 = 0;

pub const NOT_SOUND: u64 = 1;

pub const NO_ROOM: u64 = 2;

pub const SHORT_ANSWER_AREA: u64 = 3;

pub const NUMBER_TOO_LARGE: u64 = 4;

// whoever reads,
pub const NOT_RETAINED: u64 = 5;

pub const NOT_LIVE: u64 = 6;

pub const NO_SNAPSHOT_BY_THEN: u64 = 7;

// whoever commits,
pub const TIME_FALLS: u64 = 8;

pub const BAD_NAME: u64 = 9;

pub const NAME_TAKEN: u64 = 10;

pub const SCHEMA_NOT_EMPTY: u64 = 11;

pub const BAD_COLUMNS: u64 = 12;

pub const BAD_RECORD_COUNT: u64 = 13;

pub const UUID_TAKEN: u64 = 14;

pub const BAD_STATISTICS: u64 = 15;

pub const BAD_POSITIONS: u64 = 16;

pub const ALREADY_DELETED: u64 = 17;

// whoever maintains.
pub const BAD_EXPIRY_LIST: u64 = 18;

pub const EXPIRES_LATEST: u64 = 19;

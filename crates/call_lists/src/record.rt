ghost use Rattle.std.specs.Prelude.{◌≡◌, true, ◌+◌, ◌*◌, ◌≤◌, length};
ghost use Rattle.call_lists.specs.Records.{call_size, call_at};
ghost use Rattle.call_lists.specs.Calls.{is_reading, is_request_kind, span_fits, spans_fit, is_asked, call_count};

use layout::kind::ChangeKind;
use layout::number::{CatalogId, FileId, SnapshotId};
use layout::record::Uuid;

// Where an argument lies in the run of its kind: its first word or byte, and how many.
#[derive(Clone, Copy)]
pub struct Span {
    pub start: usize,
    pub length: usize,
}

// A call or a reading, fields in the order of its words; each reads those that it takes. `catalog` is a schema or a table, `file` a data file or, for the
// lookup, any file; `words` are columns, statistics, positions or snapshot ids; `name` is a schema's or a table's, `names` are the columns'.
// The scalar is a signed number, by its word.
#[derive(Clone, Copy)]
pub struct CallRecord {
    pub kind: u64,
    pub time: u64,
    pub snapshot: SnapshotId,
    pub catalog: CatalogId,
    pub file: FileId,
    pub column: u64,
    pub scalar: u64,
    pub record_count: u64,
    pub uuid: Uuid,
    pub words: Span,
    pub name: Span,
    pub names: Span,
}

impl CallRecord {
    pub const SIZE: usize = 16;

    pub const KIND: usize = 0;

    pub const TIME: usize = 1;

    pub const SNAPSHOT: usize = 2;

    pub const CATALOG: usize = 3;

    pub const FILE: usize = 4;

    pub const COLUMN: usize = 5;

    pub const SCALAR: usize = 6;

    pub const RECORD_COUNT: usize = 7;

    pub const UUID_HIGH: usize = 8;

    pub const UUID_LOW: usize = 9;

    pub const WORDS_START: usize = 10;

    pub const WORDS_LENGTH: usize = 11;

    pub const NAME_START: usize = 12;

    pub const NAME_LENGTH: usize = 13;

    pub const NAMES_START: usize = 14;

    pub const NAMES_LENGTH: usize = 15;
}

// A commit's kind is that of the change that it makes. Expiry, cleanup and Fresh have kinds of their own.
// Stays: a record holds any word, of which the player matches each number once.
pub const EXPIRED_SNAPSHOTS: u64 = 100;

pub const CLEANED_UP: u64 = 101;

pub const MADE_FRESH: u64 = 102;

// The kinds of readings.
pub const LISTED_SCHEMAS: u64 = 200;

pub const LISTED_TABLES: u64 = 201;

pub const LISTED_COLUMNS: u64 = 202;

pub const FOUND_TABLE_BY_NAME: u64 = 203;

pub const LISTED_FILES: u64 = 204;

pub const LISTED_FILTERED_FILES: u64 = 205;

pub const LISTED_ROWS: u64 = 206;

pub const FOUND_SNAPSHOT_BY_TIME: u64 = 207;

pub const COPIED_FILE: u64 = 208;

// The record at the place i.
pub fn call_at(w: &[u64], i: usize) -> CallRecord
    requires { call_size * i + call_size ≤ length w.now }
    ensures { result ≡ call_at w.now i }
{
    let k = CallRecord::SIZE * i;
    CallRecord {
        kind: w[k + CallRecord::KIND],
        time: w[k + CallRecord::TIME],
        snapshot: SnapshotId(w[k + CallRecord::SNAPSHOT]),
        catalog: CatalogId(w[k + CallRecord::CATALOG]),
        file: FileId(w[k + CallRecord::FILE]),
        column: w[k + CallRecord::COLUMN],
        scalar: w[k + CallRecord::SCALAR],
        record_count: w[k + CallRecord::RECORD_COUNT],
        uuid: Uuid {
            high: w[k + CallRecord::UUID_HIGH],
            low: w[k + CallRecord::UUID_LOW],
        },
        words: Span {
            start: w[k + CallRecord::WORDS_START] as usize,
            length: w[k + CallRecord::WORDS_LENGTH] as usize,
        },
        name: Span {
            start: w[k + CallRecord::NAME_START] as usize,
            length: w[k + CallRecord::NAME_LENGTH] as usize,
        },
        names: Span {
            start: w[k + CallRecord::NAMES_START] as usize,
            length: w[k + CallRecord::NAMES_LENGTH] as usize,
        },
    }
}

// Whether a reading is of that kind.
pub fn is_reading(kind: u64) -> bool
    ensures { result ≡ is_reading kind }
{
    (LISTED_SCHEMAS <= kind) & (kind <= COPIED_FILE)
}

// Whether a call or a reading is of that kind, Fresh apart.
#[tactic(auto, unfolding(ducklake::specs::Kinds::is_kind, layout::specs::Kinds::kind_of, lists::specs::Lists::any))]
fn is_request(kind: u64) -> bool
    ensures { result ≡ is_request_kind kind }
{
    let change = ChangeKind::of(kind).is_some();
    let reading = is_reading(kind);
    change | ((EXPIRED_SNAPSHOTS <= kind) & (kind <= CLEANED_UP)) | reading
}

// Whether a span lies within a run of so many words or bytes.
fn span_fits(size: usize, span: Span) -> bool
    ensures { result ≡ span_fits size span }
{
    (span.start <= size) && (span.length <= size - span.start)
}

// Whether the record, at the place i, asks for something, and its arguments are there.
#[tactic(auto, unfolding(crate::specs::Calls::spans_fit, crate::specs::Calls::is_asked))]
fn is_asked(lists: usize, names: usize, i: usize, call: CallRecord) -> bool
    ensures { result ≡ is_asked lists names i call }
{
    let request = is_request(call.kind);
    let words = span_fits(lists, call.words);
    let name = span_fits(names, call.name);
    let column_names = span_fits(names, call.names);
    (request | ((i == 0) & (call.kind == MADE_FRESH))) & (words & name & column_names)
}

// How many of the first n records come before one that asks for nothing.
pub fn count_calls(w: &[u64], lists: usize, names: usize, n: usize) -> usize
    requires { call_size * n ≤ length w.now }
    ensures { result ≡ call_count w.now lists names n }
{
    for i in 0..n {
        let call = call_at(w, i);
        if !is_asked(lists, names, i, call) {
            return i;
        }
    }
    n
}

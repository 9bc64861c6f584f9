ghost use Rattle.std.specs.Prelude.{◌≡◌, List, ℕ, ◌+◌, ◌*◌, ◌≤◌, length};
ghost use Rattle.lists.specs.Lists.{all};
ghost use Rattle.layout.specs.Fields.{snapshot_size, schema_size, table_size, column_size, data_file_size, delete_file_size, statistics_size, scheduled_size};
ghost use Rattle.layout.specs.Names.{name_size};
ghost use Rattle.layout.specs.Lent.{words_lent};
ghost use Rattle.layout.specs.Words.{Words, load, snapshot_at, schema_at, table_at, column_at, data_file_at, delete_file_at, statistics_at, scheduled_in};
ghost use Rattle.ducklake.specs.Soundness.{snapshot_in_range, schema_in_range, table_in_range, column_in_range, data_file_in_range, delete_file_in_range, statistics_in_range, scheduled_in_range, fields_in_range};
ghost use Rattle.soundness_fields.specs.Lent.{FieldsLent};

use column_types::is_type;
use layout::number::{NUMBER_LIMIT, RECORD_COUNT_LIMIT};
use layout::outcome::Counts;
use layout::record::ScheduledRecord;
use layout::tables::Tables;
use names::is_name;
use records::column::column_at;
use records::data_file::data_file_at;
use records::delete_file::delete_file_at;
use records::schema::schema_id;
use records::snapshot::snapshot_at;
use records::statistics::statistics_at;
use records::table::table_at;
use runs::fields::Fields;

// "every field is in its range; padding is zero": one pass over each table, which tests the fields of a record together.

// "record_count is 1 to 1,048,576."
const LEAST_RECORD_COUNT: u64 = 1;

// "(0 or 1)"
const FLAG_LIMIT: u64 = 1;

// Stays: one limit bounds the numbers of every type of id, and plain numbers.
#[tactic(auto, unfolding(ducklake::specs::Soundness::snapshot_in_range))]
fn snapshot_in_range(snapshots: &[u64], i: usize) -> bool
    requires { snapshot_size * i + snapshot_size ≤ length snapshots.now }
    ensures { result ≡ snapshot_in_range (snapshot_at snapshots.now i) }
{
    let s = snapshot_at(snapshots, i);
    (s.id.0 <= NUMBER_LIMIT)
        & (s.schema_version <= NUMBER_LIMIT)
        & (s.next_catalog_id.0 <= NUMBER_LIMIT)
        & (s.next_file_id.0 <= NUMBER_LIMIT)
}

// Stays: one limit bounds the numbers of every type of id, and plain numbers.
#[tactic(auto, unfolding(ducklake::specs::Soundness::schema_in_range))]
fn schema_in_range(schemas: &[u64], names: &[u8], i: usize) -> bool
    requires { (schema_size * i + schema_size ≤ length schemas.now) × (name_size * i + name_size ≤ length names.now) }
    ensures { result ≡ schema_in_range (schema_at schemas.now names.now i) }
{
    let id = schema_id(schemas, i);
    let name = is_name(names, i);
    (id.0 <= NUMBER_LIMIT) & name
}

// Stays: one limit bounds the numbers of every type of id, and plain numbers.
#[tactic(auto, unfolding(ducklake::specs::Soundness::table_in_range))]
fn table_in_range(tables: &[u64], names: &[u8], i: usize) -> bool
    requires { (table_size * i + table_size ≤ length tables.now) × (name_size * i + name_size ≤ length names.now) }
    ensures { result ≡ table_in_range (table_at tables.now names.now i) }
{
    let t = table_at(tables, i);
    let name = is_name(names, i);
    (t.id.0 <= NUMBER_LIMIT)
        & (t.schema.0 <= NUMBER_LIMIT)
        & (t.next_row_id.0 <= NUMBER_LIMIT)
        & name
}

// Stays: one limit bounds the numbers of every type of id, and plain numbers.
#[tactic(auto, unfolding(ducklake::specs::Soundness::column_in_range))]
fn column_in_range(columns: &[u64], names: &[u8], i: usize) -> bool
    requires { (column_size * i + column_size ≤ length columns.now) × (name_size * i + name_size ≤ length names.now) }
    ensures { result ≡ column_in_range (column_at columns.now names.now i) }
{
    let c = column_at(columns, i);
    let code = is_type(c.type_code);
    let name = is_name(names, i);
    (c.id <= NUMBER_LIMIT)
        & (c.table.0 <= NUMBER_LIMIT)
        & (c.order <= NUMBER_LIMIT)
        & code
        & (c.nulls_allowed <= FLAG_LIMIT)
        & name
}

// Stays: one limit bounds the numbers of every type of id, and plain numbers.
#[tactic(auto, unfolding(ducklake::specs::Soundness::data_file_in_range, ducklake::specs::Soundness::is_record_count))]
fn data_file_in_range(data_files: &[u64], i: usize) -> bool
    requires { data_file_size * i + data_file_size ≤ length data_files.now }
    ensures { result ≡ data_file_in_range (data_file_at data_files.now i) }
{
    let f = data_file_at(data_files, i);
    (f.id.0 <= NUMBER_LIMIT)
        & (f.table.0 <= NUMBER_LIMIT)
        & (f.row_id_start.0 <= NUMBER_LIMIT)
        & ((LEAST_RECORD_COUNT <= f.record_count) & (f.record_count <= RECORD_COUNT_LIMIT))
}

// Stays: one limit bounds the numbers of every type of id, and plain numbers.
#[tactic(auto, unfolding(ducklake::specs::Soundness::delete_file_in_range))]
fn delete_file_in_range(delete_files: &[u64], i: usize) -> bool
    requires { delete_file_size * i + delete_file_size ≤ length delete_files.now }
    ensures { (positions : List ℕ) → result ≡ delete_file_in_range (delete_file_at delete_files.now positions i) }
{
    let f = delete_file_at(delete_files, i);
    (f.id.0 <= NUMBER_LIMIT) & (f.table.0 <= NUMBER_LIMIT) & (f.data_file.0 <= NUMBER_LIMIT)
}

// Stays: one limit bounds the numbers of every type of id, and plain numbers.
#[tactic(auto, unfolding(ducklake::specs::Soundness::statistics_in_range))]
fn statistics_in_range(statistics: &[u64], i: usize) -> bool
    requires { statistics_size * i + statistics_size ≤ length statistics.now }
    ensures { result ≡ statistics_in_range (statistics_at statistics.now i) }
{
    let x = statistics_at(statistics, i);
    (x.data_file.0 <= NUMBER_LIMIT) & (x.column <= NUMBER_LIMIT)
}

fn scheduled_in_range(scheduled: &[u64], n: usize) -> bool
    requires { scheduled_size * n ≤ length scheduled.now }
    ensures { result ≡ all scheduled_in_range (scheduled_in scheduled.now n) }
{
    let of_files = Fields {
        words: scheduled,
        size: ScheduledRecord::SIZE,
        at: ScheduledRecord::FILE,
        n,
    };
    of_files.between(0, NUMBER_LIMIT)
}

// The same of all tables.
pub fn fields_in_range(lent: Tables, counts: Counts) -> bool
    requires { FieldsLent (words_lent lent) counts }
    ensures { (w : Words)
        → w.snapshots ≡ lent.entry.snapshots.now
        → w.schemas ≡ lent.entry.schemas.now
        → w.schema_names ≡ lent.entry.schema_names.now
        → w.tables ≡ lent.entry.tables.now
        → w.table_names ≡ lent.entry.table_names.now
        → w.columns ≡ lent.entry.columns.now
        → w.column_names ≡ lent.entry.column_names.now
        → w.data_files ≡ lent.entry.data_files.now
        → w.delete_files ≡ lent.entry.delete_files.now
        → w.statistics ≡ lent.entry.statistics.now
        → w.scheduled ≡ lent.entry.scheduled.now
        → result ≡ fields_in_range (load w counts) }
{
    let a = (0..counts.snapshots).all(|i| snapshot_in_range(lent.snapshots, i));
    let b = (0..counts.schemas).all(|i| schema_in_range(lent.schemas, lent.schema_names, i));
    let c = (0..counts.tables).all(|i| table_in_range(lent.tables, lent.table_names, i));
    let d = (0..counts.columns).all(|i| column_in_range(lent.columns, lent.column_names, i));
    let e = (0..counts.data_files).all(|i| data_file_in_range(lent.data_files, i));
    let f = (0..counts.delete_files).all(|i| delete_file_in_range(lent.delete_files, i));
    let g = (0..counts.statistics).all(|i| statistics_in_range(lent.statistics, i));
    let h = scheduled_in_range(lent.scheduled, counts.scheduled);
    a & b & c & d & e & f & g & h
}

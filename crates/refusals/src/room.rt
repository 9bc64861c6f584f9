ghost use Rattle.std.specs.Prelude.{◌≡◌, ◌+◌, ◌/◌, ◌<◌, min, leb};
ghost use Rattle.layout.specs.Lent.{words_lent};
ghost use Rattle.layout.specs.Names.{name_size};
ghost use Rattle.layout.specs.Words.{table_limit, capacity, within};
ghost use Rattle.call_laws.specs.Writes.{add_counts};
ghost use Rattle.refusals.specs.Few.{Few};

use layout::number::{NAME_SIZE, POSITION_LIMIT, TABLE_LIMIT};
use layout::outcome::Counts;
use layout::record::{
    ColumnRecord, DataFileRecord, DeleteFileRecord, ScheduledRecord, SchemaRecord, SnapshotRecord,
    StatisticsRecord, TableRecord,
};
use layout::tables::Tables;

// The smaller of two numbers.
pub fn smaller(a: usize, b: usize) -> usize
    ensures { result ≡ min a b }
{
    if a < b {
        return a;
    }
    b
}

// How many records of `size` words a run of so many words has room for.
fn record_room(words: usize, size: usize) -> usize
    requires { 0 < size }
    ensures { result ≡ min table_limit (words / size) }
{
    smaller(TABLE_LIMIT, words / size)
}

// The same of a table with names, which lends what both its runs hold.
fn named_room(words: usize, size: usize, bytes: usize) -> usize
    requires { 0 < size }
    ensures { result ≡ min (min table_limit (words / size)) (bytes / name_size) }
{
    let n = record_room(words, size);
    smaller(n, bytes / NAME_SIZE)
}

// What each table has room for: the whole records that its runs hold, up to the limit.
pub fn capacity(lent: Tables) -> Counts
    ensures { result ≡ capacity (words_lent lent.entry) }
{
    Counts {
        snapshots: record_room(lent.snapshots.len(), SnapshotRecord::SIZE),
        schemas: named_room(
            lent.schemas.len(),
            SchemaRecord::SIZE,
            lent.schema_names.len(),
        ),
        tables: named_room(lent.tables.len(), TableRecord::SIZE, lent.table_names.len()),
        columns: named_room(
            lent.columns.len(),
            ColumnRecord::SIZE,
            lent.column_names.len(),
        ),
        data_files: record_room(lent.data_files.len(), DataFileRecord::SIZE),
        delete_files: record_room(lent.delete_files.len(), DeleteFileRecord::SIZE),
        positions: smaller(POSITION_LIMIT, lent.positions.len()),
        statistics: record_room(lent.statistics.len(), StatisticsRecord::SIZE),
        scheduled: record_room(lent.scheduled.len(), ScheduledRecord::SIZE),
    }
}

// Whether each count is at most the other's.
pub fn is_within(a: Counts, b: Counts) -> bool
    ensures { result ≡ within a b }
{
    (a.snapshots <= b.snapshots)
        & (a.schemas <= b.schemas)
        & (a.tables <= b.tables)
        & (a.columns <= b.columns)
        & (a.data_files <= b.data_files)
        & (a.delete_files <= b.delete_files)
        & (a.positions <= b.positions)
        & (a.statistics <= b.statistics)
        & (a.scheduled <= b.scheduled)
}

// Whether so many more have room: no sum that wraps.
pub fn more_fit(used: usize, added: usize, room: usize) -> bool
    ensures { result ≡ leb (used + added) room }
{
    if room < added {
        return false;
    }
    used <= room - added
}

// "2 the change needs more records or positions than are lent or allowed": whether there is room for what is added.
pub fn has_room(room: Counts, counts: Counts, added: Counts) -> bool
    ensures { result ≡ within (add_counts counts added) room }
{
    let snapshots = more_fit(counts.snapshots, added.snapshots, room.snapshots);
    let schemas = more_fit(counts.schemas, added.schemas, room.schemas);
    let tables = more_fit(counts.tables, added.tables, room.tables);
    let columns = more_fit(counts.columns, added.columns, room.columns);
    let data_files = more_fit(counts.data_files, added.data_files, room.data_files);
    let delete_files = more_fit(counts.delete_files, added.delete_files, room.delete_files);
    let positions = more_fit(counts.positions, added.positions, room.positions);
    let statistics = more_fit(counts.statistics, added.statistics, room.statistics);
    let scheduled = more_fit(counts.scheduled, added.scheduled, room.scheduled);
    snapshots
        & schemas
        & tables
        & columns
        & data_files
        & delete_files
        & positions
        & statistics
        & scheduled
}

// The counts after a change that there is room for.
pub fn counts_after(counts: Counts, added: Counts) -> Counts
    requires { Few (add_counts counts added) }
    ensures { result ≡ add_counts counts added }
{
    Counts {
        snapshots: counts.snapshots + added.snapshots,
        schemas: counts.schemas + added.schemas,
        tables: counts.tables + added.tables,
        columns: counts.columns + added.columns,
        data_files: counts.data_files + added.data_files,
        delete_files: counts.delete_files + added.delete_files,
        positions: counts.positions + added.positions,
        statistics: counts.statistics + added.statistics,
        scheduled: counts.scheduled + added.scheduled,
    }
}

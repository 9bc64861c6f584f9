// Plays the diary session of document 01 and prints its files.
#![tactic(auto)]

ghost use Rattle.paths.specs.Text.{Written};
ghost use Rattle.diary_session.specs.Room.{Room};
ghost use Rattle.diary_session.specs.Program.{diary_text};

use diary_changes::end_session;
use diary_listing::write_listing;
use diary_start::begin_session;
use layout::number::NAME_SIZE;
use layout::outcome::Counts;
use layout::record::{
    ColumnRecord, DataFileRecord, DeleteFileRecord, ScheduledRecord, SchemaRecord, SnapshotRecord,
    StatisticsRecord, TableRecord,
};
use layout::tables::Tables;
use paths::path::PATH_LENGTH;
use std::io;
use std::io::Write;

// The tables have room for so many records each, and so many positions and words of answer are lent.
const ROOM: usize = 8;

// The header, and a line of two paths, a comma and LF for each data file that there is room for.
const TEXT_LENGTH: usize = 22 + ROOM * (2 * PATH_LENGTH + 2);

// Nothing is used yet.
const NO_COUNTS: Counts = Counts {
    snapshots: 0,
    schemas: 0,
    tables: 0,
    columns: 0,
    data_files: 0,
    delete_files: 0,
    positions: 0,
    statistics: 0,
    scheduled: 0,
};

// The text that is printed: the session up to time 150, played on tables of zeros, and then the files at 5.
fn write_diary(text: &mut [u8]) -> usize
    requires { Room text.old 0 diary_text }
    ensures { Written text.old 0 diary_text text.new result }
{
    let mut snapshots = [0u64; ROOM * SnapshotRecord::SIZE];
    let mut schemas = [0u64; ROOM * SchemaRecord::SIZE];
    let mut schema_names = [0u8; ROOM * NAME_SIZE];
    let mut tables = [0u64; ROOM * TableRecord::SIZE];
    let mut table_names = [0u8; ROOM * NAME_SIZE];
    let mut columns = [0u64; ROOM * ColumnRecord::SIZE];
    let mut column_names = [0u8; ROOM * NAME_SIZE];
    let mut data_files = [0u64; ROOM * DataFileRecord::SIZE];
    let mut delete_files = [0u64; ROOM * DeleteFileRecord::SIZE];
    let mut positions = [0u64; ROOM];
    let mut statistics = [0u64; ROOM * StatisticsRecord::SIZE];
    let mut scheduled = [0u64; ROOM * ScheduledRecord::SIZE];
    let mut area = [0u64; ROOM];
    let begun = begin_session(
        &mut snapshots,
        &mut schemas,
        &mut schema_names,
        &mut tables,
        &mut table_names,
        &mut columns,
        &mut column_names,
        &mut data_files,
        &mut delete_files,
        &mut positions,
        &mut statistics,
        &mut scheduled,
        NO_COUNTS,
        &mut area,
    );
    let ended = end_session(
        &mut snapshots,
        &mut schemas,
        &mut schema_names,
        &mut tables,
        &mut table_names,
        &mut columns,
        &mut column_names,
        &mut data_files,
        &mut delete_files,
        &mut positions,
        &mut statistics,
        &mut scheduled,
        begun.counts,
        &mut area,
    );
    let lent = Tables {
        snapshots: &snapshots,
        schemas: &schemas,
        schema_names: &schema_names,
        tables: &tables,
        table_names: &table_names,
        columns: &columns,
        column_names: &column_names,
        data_files: &data_files,
        delete_files: &delete_files,
        positions: &positions,
        statistics: &statistics,
        scheduled: &scheduled,
    };
    write_listing(lent, ended.counts, &mut area, text)
}

fn main(rt: HostRuntime) -> io::Result<()> {
    let mut text = [0u8; TEXT_LENGTH];
    let n = write_diary(&mut text);
    io::writer(&rt).write_all(&text[..n])
}

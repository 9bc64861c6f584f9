ghost use Rattle.soundness_lives.specs.Lent.{Nestable};

use layout::outcome::Counts;
use layout::record::{ColumnRecord, DataFileRecord, DeleteFileRecord, SchemaRecord, TableRecord};
use layout::tables::Tables;
use lookup::places::{block_starts, locate};

// Where the record that each one belongs to most likely is, and where the columns of each table's place begin.
#[derive(Clone, Copy)]
pub struct References<'a> {
    pub of_tables: &'a [u16],
    pub of_columns: &'a [u16],
    pub of_data_files: &'a [u16],
    pub of_delete_files: &'a [u16],
    pub starts: &'a [u16],
}

// Seeks each record that another belongs to, once: the places where they most likely are, and where the columns of each table's place begin. The hints are
// scratch.
pub fn locate_references(
    lent: Tables,
    counts: Counts,
    hints: &mut [u16],
    of_tables: &mut [u16],
    of_columns: &mut [u16],
    of_data_files: &mut [u16],
    of_delete_files: &mut [u16],
    starts: &mut [u16],
)
    requires { Nestable lent.schemas.now lent.tables.now lent.columns.now lent.data_files.now lent.delete_files.now counts }
{
    locate(
        lent.tables,
        TableRecord::SIZE,
        TableRecord::SCHEMA,
        counts.tables,
        lent.schemas,
        SchemaRecord::SIZE,
        SchemaRecord::ID,
        counts.schemas,
        hints,
        of_tables,
    );
    locate(
        lent.columns,
        ColumnRecord::SIZE,
        ColumnRecord::TABLE,
        counts.columns,
        lent.tables,
        TableRecord::SIZE,
        TableRecord::ID,
        counts.tables,
        hints,
        of_columns,
    );
    locate(
        lent.data_files,
        DataFileRecord::SIZE,
        DataFileRecord::TABLE,
        counts.data_files,
        lent.tables,
        TableRecord::SIZE,
        TableRecord::ID,
        counts.tables,
        hints,
        of_data_files,
    );
    locate(
        lent.delete_files,
        DeleteFileRecord::SIZE,
        DeleteFileRecord::DATA_FILE,
        counts.delete_files,
        lent.data_files,
        DataFileRecord::SIZE,
        DataFileRecord::ID,
        counts.data_files,
        hints,
        of_delete_files,
    );
    block_starts(of_columns, counts.columns, starts);
}

ghost use Rattle.std.specs.Prelude.{◌≡◌, ◌*◌, ◌≤◌, length};
ghost use Rattle.layout.specs.Fields.{schema_size, schema_id_word, schema_end_word, table_size, table_id_word, table_end_word, column_size, column_table_word, column_end_word, data_file_size, data_file_table_word, data_file_end_word, delete_file_size, delete_file_table_word, delete_file_data_file_word, delete_file_end_word};
ghost use Rattle.call_laws.specs.Writes.{end_records};

use layout::number::{ABSENT, CatalogId, FileId, SnapshotId};
use layout::record::{ColumnRecord, DataFileRecord, DeleteFileRecord, SchemaRecord, TableRecord};
use runs::update::set_where;

// The open records that are named end at s.
// Stays: `set_where` is the one function for all of them; each of these names a table, its words and the type of its id.
// The schema of an id,
pub fn end_schema(schemas: &mut [u64], n: usize, id: CatalogId, s: SnapshotId)
    requires { schema_size * n ≤ length schemas.old }
    ensures { schemas.new ≡ end_records schema_size schema_id_word schema_end_word id.0 s.0 schemas.old n }
{
    set_where(
        schemas,
        SchemaRecord::SIZE,
        SchemaRecord::ID,
        SchemaRecord::END,
        n,
        id.0,
        ABSENT,
        s.0,
    );
}

// the table of an id,
pub fn end_table(tables: &mut [u64], n: usize, id: CatalogId, s: SnapshotId)
    requires { table_size * n ≤ length tables.old }
    ensures { tables.new ≡ end_records table_size table_id_word table_end_word id.0 s.0 tables.old n }
{
    set_where(
        tables,
        TableRecord::SIZE,
        TableRecord::ID,
        TableRecord::END,
        n,
        id.0,
        ABSENT,
        s.0,
    );
}

// the columns of a table,
pub fn end_columns(columns: &mut [u64], n: usize, table: CatalogId, s: SnapshotId)
    requires { column_size * n ≤ length columns.old }
    ensures { columns.new ≡ end_records column_size column_table_word column_end_word table.0 s.0 columns.old n }
{
    set_where(
        columns,
        ColumnRecord::SIZE,
        ColumnRecord::TABLE,
        ColumnRecord::END,
        n,
        table.0,
        ABSENT,
        s.0,
    );
}

// the data files of a table,
pub fn end_data_files(data_files: &mut [u64], n: usize, table: CatalogId, s: SnapshotId)
    requires { data_file_size * n ≤ length data_files.old }
    ensures { data_files.new
        ≡ end_records data_file_size data_file_table_word data_file_end_word table.0 s.0 data_files.old n }
{
    set_where(
        data_files,
        DataFileRecord::SIZE,
        DataFileRecord::TABLE,
        DataFileRecord::END,
        n,
        table.0,
        ABSENT,
        s.0,
    );
}

// the delete files of a table,
pub fn end_delete_files(delete_files: &mut [u64], n: usize, table: CatalogId, s: SnapshotId)
    requires { delete_file_size * n ≤ length delete_files.old }
    ensures { delete_files.new
        ≡ end_records delete_file_size delete_file_table_word delete_file_end_word table.0 s.0 delete_files.old n }
{
    set_where(
        delete_files,
        DeleteFileRecord::SIZE,
        DeleteFileRecord::TABLE,
        DeleteFileRecord::END,
        n,
        table.0,
        ABSENT,
        s.0,
    );
}

// and the delete file of a data file.
pub fn end_delete_file(delete_files: &mut [u64], n: usize, data_file: FileId, s: SnapshotId)
    requires { delete_file_size * n ≤ length delete_files.old }
    ensures { delete_files.new
        ≡ end_records delete_file_size delete_file_data_file_word delete_file_end_word data_file.0 s.0 delete_files.old n }
{
    set_where(
        delete_files,
        DeleteFileRecord::SIZE,
        DeleteFileRecord::DATA_FILE,
        DeleteFileRecord::END,
        n,
        data_file.0,
        ABSENT,
        s.0,
    );
}

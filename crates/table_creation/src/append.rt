ghost use Rattle.std.specs.Prelude.{◌≡◌, map, ◌+◌, ◌*◌, ◌≤◌, length};
ghost use Rattle.lists.specs.Lists.{range};
ghost use Rattle.lists.specs.Runs.{overwrite};
ghost use Rattle.layout.specs.Fields.{column_size};
ghost use Rattle.layout.specs.Names.{name_size};
ghost use Rattle.layout.specs.Records.{column_layout, column_words};
ghost use Rattle.call_laws.specs.Writes.{extend_table};
ghost use Rattle.table_creation.specs.Columns.{new_column_record};
ghost use Rattle.table_creation.specs.Appended.{ColumnRoom, ColumnsRoom, ColumnsAppended};

use crate::argument::{column_argument, column_count};
use layout::number::{CatalogId, NAME_SIZE, SnapshotId};
use layout::record::ColumnRecord;
use records::column::write_column;

// The column i of the argument as one of the table, behind the first n columns and those before it: "columns get ids 1, 2, … and orders 0, 1, …".
fn append_column(
    columns: &mut [u64],
    n: usize,
    table: CatalogId,
    begin: SnapshotId,
    new_columns: &[u64],
    i: usize,
)
    requires { ColumnRoom columns.old n new_columns.now (i + 1) }
    ensures { columns.new ≡ overwrite columns.old (column_size * (n + i))
        (column_words (new_column_record begin.0 table.0 new_columns.now i)) }
{
    let column = column_argument(new_columns, i);
    let id = i as u64 + 1;
    write_column(
        columns,
        n + i,
        ColumnRecord {
            id,
            table,
            begin,
            end: SnapshotId::ABSENT,
            order: i as u64,
            type_code: column.type_code,
            nulls_allowed: column.nulls_allowed,
        },
    );
}

// The first k columns of the argument, behind the first n.
fn append_records(
    columns: &mut [u64],
    n: usize,
    table: CatalogId,
    begin: SnapshotId,
    new_columns: &[u64],
    k: usize,
)
    requires { ColumnRoom columns.old n new_columns.now k }
    ensures { columns.new ≡ extend_table column_layout columns.old n
        (map (new_column_record begin.0 table.0 new_columns.now) (range 0 k)) }
{
    for i in 0..k {
        append_column(columns, n, table, begin, new_columns, i);
    }
}

// The name places of the argument, behind the first n.
fn append_names(names: &mut [u8], n: usize, new_names: &[u8])
    requires { name_size * n + length new_names.now ≤ length names.old }
    ensures { names.new ≡ overwrite names.old (name_size * n) new_names.now }
{
    let a = NAME_SIZE * n;
    let m = new_names.len();
    // Stays: `copy_from_slice` would be a call of memmove, which nothing else in the archive for C asks for.
    for k in 0..m {
        names[a + k] = new_names[k];
    }
}

// The columns of a new table that begins at a snapshot, behind the first n, and their names in their places.
pub fn append_columns(
    columns: &mut [u64],
    names: &mut [u8],
    n: usize,
    table: CatalogId,
    begin: SnapshotId,
    new_columns: &[u64],
    new_names: &[u8],
)
    requires { ColumnsRoom columns.old names.old n table.0 new_columns.now new_names.now }
    ensures { ColumnsAppended begin.0 table.0 new_columns.now new_names.now n
        columns.old names.old columns.new names.new }
{
    let k = column_count(new_columns);
    append_records(columns, n, table, begin, new_columns, k);
    append_names(names, n, new_names);
}

ghost use Rattle.std.specs.Prelude.{◌≡◌, ◌+◌, ◌*◌, ◌≤◌, length};
ghost use Rattle.ducklake.specs.Arguments.{column_argument_size, column_arguments};
ghost use Rattle.table_creation.specs.Columns.{argument_at};

use layout::number::COLUMN_ARGUMENT_SIZE;

// A column of the argument, beside its name: "type and nulls_allowed, two words each".
#[derive(Clone, Copy)]
pub struct ColumnArgument {
    pub type_code: u64,
    pub nulls_allowed: u64,
}

// How many columns the argument holds.
pub fn column_count(columns: &[u64]) -> usize
    ensures { result ≡ column_arguments columns.now }
{
    columns.len() / COLUMN_ARGUMENT_SIZE
}

// The column i of it.
pub fn column_argument(columns: &[u64], i: usize) -> ColumnArgument
    requires { column_argument_size * i + column_argument_size ≤ length columns.now }
    ensures { result ≡ argument_at columns.now i }
{
    let k = COLUMN_ARGUMENT_SIZE * i;
    ColumnArgument {
        type_code: columns[k],
        nulls_allowed: columns[k + 1],
    }
}

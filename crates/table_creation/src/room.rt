ghost use Rattle.std.specs.Prelude.{◌≡◌};
ghost use Rattle.ducklake.specs.Arguments.{column_arguments};
ghost use Rattle.table_creation.specs.TableRoom.{table_added};

use crate::argument::column_count;
use layout::outcome::Counts;

// What 'create table' adds: a snapshot, a table and the columns of its argument.
pub fn table_added(new_columns: &[u64]) -> Counts
    ensures { result ≡ table_added (column_arguments new_columns.now) }
{
    let columns = column_count(new_columns);
    Counts {
        snapshots: 1,
        schemas: 0,
        tables: 1,
        columns,
        data_files: 0,
        delete_files: 0,
        positions: 0,
        statistics: 0,
        scheduled: 0,
    }
}

ghost use Rattle.std.specs.Prelude.{◌≡◌};
ghost use Rattle.layout.specs.Lent.{read_at_entry};
ghost use Rattle.ducklake.specs.Soundness.{first_unsound};

use layout::outcome::Counts;
use layout::tables::Tables;
use soundness::check::first_unsound;

// The first line of 'Sound tables' that doesn't hold, or 0.
#[unsafe(no_mangle)]
pub extern "C" fn catalog_first_unsound(
    snapshots: &[u64],
    schemas: &[u64],
    schema_names: &[u8],
    tables: &[u64],
    table_names: &[u8],
    columns: &[u64],
    column_names: &[u8],
    data_files: &[u64],
    delete_files: &[u64],
    positions: &[u64],
    statistics: &[u64],
    scheduled: &[u64],
    counts: Counts,
) -> u64
    ensures { result ≡ first_unsound (read_at_entry snapshots schemas schema_names tables table_names columns column_names
        data_files delete_files positions statistics scheduled) counts }
{
    let lent = Tables {
        snapshots,
        schemas,
        schema_names,
        tables,
        table_names,
        columns,
        column_names,
        data_files,
        delete_files,
        positions,
        statistics,
        scheduled,
    };
    first_unsound(lent, counts)
}

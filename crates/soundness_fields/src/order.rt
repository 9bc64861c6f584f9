ghost use Rattle.std.specs.Prelude.{◌≡◌};
ghost use Rattle.layout.specs.Words.{Words, load};
ghost use Rattle.ducklake.specs.Soundness.{ids_ascend};
ghost use Rattle.soundness_fields.specs.Lent.{IdsLent};

use layout::outcome::Counts;
use layout::record::{
    ColumnRecord, DataFileRecord, DeleteFileRecord, SchemaRecord, StatisticsRecord, TableRecord,
};
use runs::fields::Fields;

// "ids ascend strictly in schema, table, data file and delete file, columns by (table id, column id), statistics by (data file id, column id)":
// what every lookup relies on.
pub fn ids_ascend(
    schemas: &[u64],
    tables: &[u64],
    columns: &[u64],
    data_files: &[u64],
    delete_files: &[u64],
    statistics: &[u64],
    counts: Counts,
) -> bool
    requires { IdsLent schemas.now tables.now columns.now data_files.now delete_files.now statistics.now counts }
    ensures { (w : Words)
        → w.schemas ≡ schemas.now
        → w.tables ≡ tables.now
        → w.columns ≡ columns.now
        → w.data_files ≡ data_files.now
        → w.delete_files ≡ delete_files.now
        → w.statistics ≡ statistics.now
        → result ≡ ids_ascend (load w counts) }
{
    let of_schemas = Fields {
        words: schemas,
        size: SchemaRecord::SIZE,
        at: SchemaRecord::ID,
        n: counts.schemas,
    };
    let of_tables = Fields {
        words: tables,
        size: TableRecord::SIZE,
        at: TableRecord::ID,
        n: counts.tables,
    };
    let of_data_files = Fields {
        words: data_files,
        size: DataFileRecord::SIZE,
        at: DataFileRecord::ID,
        n: counts.data_files,
    };
    let of_delete_files = Fields {
        words: delete_files,
        size: DeleteFileRecord::SIZE,
        at: DeleteFileRecord::ID,
        n: counts.delete_files,
    };
    let of_columns = Fields {
        words: columns,
        size: ColumnRecord::SIZE,
        at: ColumnRecord::TABLE,
        n: counts.columns,
    };
    let of_statistics = Fields {
        words: statistics,
        size: StatisticsRecord::SIZE,
        at: StatisticsRecord::DATA_FILE,
        n: counts.statistics,
    };
    let a = of_schemas.ascend();
    let b = of_tables.ascend();
    let c = of_data_files.ascend();
    let d = of_delete_files.ascend();
    let e = of_columns.ascend_then(ColumnRecord::ID);
    let f = of_statistics.ascend_then(StatisticsRecord::COLUMN);
    a & b & c & d & e & f
}

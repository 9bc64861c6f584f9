ghost use Rattle.std.specs.Prelude.{◌≡◌, ◌+◌, ◌*◌, ◌≤◌, length};
ghost use Rattle.lists.specs.Runs.{at, overwrite};
ghost use Rattle.layout.specs.Fields.{table_size};
ghost use Rattle.layout.specs.Records.{table_layout, table_words};

use layout::number::{CatalogId, RowId, SnapshotId};
use layout::record::TableRecord;

// A table at the place i.
pub fn table_at(w: &[u64], i: usize) -> TableRecord
    requires { table_size * i + table_size ≤ length w.now }
    ensures { result ≡ at table_layout w.now i }
{
    let k = TableRecord::SIZE * i;
    TableRecord {
        id: CatalogId(w[k + TableRecord::ID]),
        begin: SnapshotId(w[k + TableRecord::BEGIN]),
        end: SnapshotId(w[k + TableRecord::END]),
        schema: CatalogId(w[k + TableRecord::SCHEMA]),
        next_row_id: RowId(w[k + TableRecord::NEXT_ROW_ID]),
    }
}

pub fn write_table(w: &mut [u64], i: usize, r: TableRecord)
    requires { table_size * i + table_size ≤ length w.old }
    ensures { w.new ≡ overwrite w.old (table_size * i) (table_words r) }
{
    let k = TableRecord::SIZE * i;
    w[k + TableRecord::ID] = r.id.0;
    w[k + TableRecord::BEGIN] = r.begin.0;
    w[k + TableRecord::END] = r.end.0;
    w[k + TableRecord::SCHEMA] = r.schema.0;
    w[k + TableRecord::NEXT_ROW_ID] = r.next_row_id.0;
}

// One field of it.
pub fn table_id(w: &[u64], i: usize) -> CatalogId
    requires { table_size * i + table_size ≤ length w.now }
    ensures { result ≡ (at table_layout w.now i).id }
{
    CatalogId(w[TableRecord::SIZE * i + TableRecord::ID])
}

pub fn table_schema(w: &[u64], i: usize) -> CatalogId
    requires { table_size * i + table_size ≤ length w.now }
    ensures { result ≡ (at table_layout w.now i).schema }
{
    CatalogId(w[TableRecord::SIZE * i + TableRecord::SCHEMA])
}

pub fn table_next_row_id(w: &[u64], i: usize) -> RowId
    requires { table_size * i + table_size ≤ length w.now }
    ensures { result ≡ (at table_layout w.now i).next_row_id }
{
    RowId(w[TableRecord::SIZE * i + TableRecord::NEXT_ROW_ID])
}

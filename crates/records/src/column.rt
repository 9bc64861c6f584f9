ghost use Rattle.std.specs.Prelude.{◌≡◌, ◌+◌, ◌*◌, ◌≤◌, length};
ghost use Rattle.lists.specs.Runs.{at, overwrite};
ghost use Rattle.layout.specs.Fields.{column_size};
ghost use Rattle.layout.specs.Records.{column_layout, column_words};

use layout::number::{CatalogId, SnapshotId};
use layout::record::ColumnRecord;

// A column at the place i.
pub fn column_at(w: &[u64], i: usize) -> ColumnRecord
    requires { column_size * i + column_size ≤ length w.now }
    ensures { result ≡ at column_layout w.now i }
{
    let k = ColumnRecord::SIZE * i;
    ColumnRecord {
        id: w[k + ColumnRecord::ID],
        table: CatalogId(w[k + ColumnRecord::TABLE]),
        begin: SnapshotId(w[k + ColumnRecord::BEGIN]),
        end: SnapshotId(w[k + ColumnRecord::END]),
        order: w[k + ColumnRecord::ORDER],
        type_code: w[k + ColumnRecord::TYPE_CODE],
        nulls_allowed: w[k + ColumnRecord::NULLS_ALLOWED],
    }
}

pub fn write_column(w: &mut [u64], i: usize, r: ColumnRecord)
    requires { column_size * i + column_size ≤ length w.old }
    ensures { w.new ≡ overwrite w.old (column_size * i) (column_words r) }
{
    let k = ColumnRecord::SIZE * i;
    w[k + ColumnRecord::ID] = r.id;
    w[k + ColumnRecord::TABLE] = r.table.0;
    w[k + ColumnRecord::BEGIN] = r.begin.0;
    w[k + ColumnRecord::END] = r.end.0;
    w[k + ColumnRecord::ORDER] = r.order;
    w[k + ColumnRecord::TYPE_CODE] = r.type_code;
    w[k + ColumnRecord::NULLS_ALLOWED] = r.nulls_allowed;
}

// One field of it.
pub fn column_id(w: &[u64], i: usize) -> u64
    requires { column_size * i + column_size ≤ length w.now }
    ensures { result ≡ (at column_layout w.now i).id }
{
    w[ColumnRecord::SIZE * i + ColumnRecord::ID]
}

pub fn column_table(w: &[u64], i: usize) -> CatalogId
    requires { column_size * i + column_size ≤ length w.now }
    ensures { result ≡ (at column_layout w.now i).table }
{
    CatalogId(w[ColumnRecord::SIZE * i + ColumnRecord::TABLE])
}

pub fn column_order(w: &[u64], i: usize) -> u64
    requires { column_size * i + column_size ≤ length w.now }
    ensures { result ≡ (at column_layout w.now i).order }
{
    w[ColumnRecord::SIZE * i + ColumnRecord::ORDER]
}

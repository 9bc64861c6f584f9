ghost use Rattle.std.specs.Prelude.{◌≡◌, ◌+◌, ◌*◌, ◌≤◌, length};
ghost use Rattle.lists.specs.Runs.{at, overwrite};
ghost use Rattle.layout.specs.Fields.{schema_size};
ghost use Rattle.layout.specs.Records.{schema_layout, schema_words};

use layout::number::{CatalogId, SnapshotId};
use layout::record::SchemaRecord;

// A schema at the place i.
pub fn schema_at(w: &[u64], i: usize) -> SchemaRecord
    requires { schema_size * i + schema_size ≤ length w.now }
    ensures { result ≡ at schema_layout w.now i }
{
    let k = SchemaRecord::SIZE * i;
    SchemaRecord {
        id: CatalogId(w[k + SchemaRecord::ID]),
        begin: SnapshotId(w[k + SchemaRecord::BEGIN]),
        end: SnapshotId(w[k + SchemaRecord::END]),
    }
}

pub fn write_schema(w: &mut [u64], i: usize, r: SchemaRecord)
    requires { schema_size * i + schema_size ≤ length w.old }
    ensures { w.new ≡ overwrite w.old (schema_size * i) (schema_words r) }
{
    let k = SchemaRecord::SIZE * i;
    w[k + SchemaRecord::ID] = r.id.0;
    w[k + SchemaRecord::BEGIN] = r.begin.0;
    w[k + SchemaRecord::END] = r.end.0;
}

// One field of it.
pub fn schema_id(w: &[u64], i: usize) -> CatalogId
    requires { schema_size * i + schema_size ≤ length w.now }
    ensures { result ≡ (at schema_layout w.now i).id }
{
    CatalogId(w[SchemaRecord::SIZE * i + SchemaRecord::ID])
}

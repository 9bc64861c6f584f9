ghost use Rattle.std.specs.Prelude.{◌≡◌, ◌&&◌, List, ℕ, ◌*◌, ◌≤◌, ltb, length};
ghost use Rattle.lists.specs.Lists.{all};
ghost use Rattle.layout.specs.Fields.{scheduled_size};
ghost use Rattle.layout.specs.Words.{Words, load, schemas_in, tables_in, data_files_in, delete_files_in, scheduled_in};
ghost use Rattle.ducklake.specs.Soundness.{ids_of_files, ids_below_next, files_distinct};
ghost use Rattle.lookup.specs.Order.{SchemasById, TablesById, DataFilesById, DeleteFilesById};
ghost use Rattle.soundness_unique.specs.Comparable.{Numbered, FilesLent, FilesScratch};

use crate::distinct::{FileTables, files_differ};
use layout::number::{CatalogId, FileId};
use layout::outcome::Counts;
use layout::record::{
    DataFileRecord, DeleteFileRecord, ScheduledRecord, SchemaRecord, TableRecord,
};
use lookup::find::latest_snapshot;
use runs::fields::Fields;

// Whether the ids of schemas and of tables, which ascend, are below that one.
fn catalog_ids_below(schemas: &[u64], tables: &[u64], counts: Counts, next: CatalogId) -> bool
    requires { SchemasById schemas.now counts.schemas × TablesById tables.now counts.tables }
    ensures { (names table_names : List ℕ)
        → result ≡ (all (λ v. ltb v.id next.0) (schemas_in schemas.now names counts.schemas)
        && all (λ v. ltb v.id next.0) (tables_in tables.now table_names counts.tables)) }
{
    let of_schemas = Fields {
        words: schemas,
        size: SchemaRecord::SIZE,
        at: SchemaRecord::ID,
        n: counts.schemas,
    };
    let of_tables = Fields {
        words: tables,
        size: TableRecord::SIZE,
        at: TableRecord::ID,
        n: counts.tables,
    };
    let a = of_schemas.ascending_below(next.0);
    let b = of_tables.ascending_below(next.0);
    a & b
}

// Whether the ids of files, scheduled ones too, are below that one: those of scheduled files are in no order.
fn file_ids_below(
    data_files: &[u64],
    delete_files: &[u64],
    scheduled: &[u64],
    counts: Counts,
    next: FileId,
) -> bool
    requires { DataFilesById data_files.now counts.data_files × DeleteFilesById delete_files.now counts.delete_files
        × (scheduled_size * counts.scheduled ≤ length scheduled.now) }
    ensures { (positions : List ℕ) → result ≡ all (λ k. ltb k next.0) (ids_of_files
        (data_files_in data_files.now counts.data_files)
        (delete_files_in delete_files.now positions counts.delete_files)
        (scheduled_in scheduled.now counts.scheduled)) }
{
    let of_data_files = Fields {
        words: data_files,
        size: DataFileRecord::SIZE,
        at: DataFileRecord::ID,
        n: counts.data_files,
    };
    let of_delete_files = Fields {
        words: delete_files,
        size: DeleteFileRecord::SIZE,
        at: DeleteFileRecord::ID,
        n: counts.delete_files,
    };
    let of_scheduled = Fields {
        words: scheduled,
        size: ScheduledRecord::SIZE,
        at: ScheduledRecord::FILE,
        n: counts.scheduled,
    };
    let a = of_data_files.ascending_below(next.0);
    let b = of_delete_files.ascending_below(next.0);
    let c = of_scheduled.below(next.0);
    a & (b & c)
}

// "schema, table and file ids are below the latest snapshot's next ids"
pub fn ids_below_next(
    snapshots: &[u64],
    schemas: &[u64],
    tables: &[u64],
    data_files: &[u64],
    delete_files: &[u64],
    scheduled: &[u64],
    counts: Counts,
) -> bool
    requires { Numbered snapshots.now schemas.now tables.now data_files.now delete_files.now scheduled.now counts }
    ensures { (w : Words)
        → w.snapshots ≡ snapshots.now
        → w.schemas ≡ schemas.now
        → w.tables ≡ tables.now
        → w.data_files ≡ data_files.now
        → w.delete_files ≡ delete_files.now
        → w.scheduled ≡ scheduled.now
        → result ≡ ids_below_next (load w counts) }
{
    let latest = latest_snapshot(snapshots, counts.snapshots);
    let next = latest.next_catalog_id;
    let next_file = latest.next_file_id;
    let a = catalog_ids_below(schemas, tables, counts, next);
    let b = file_ids_below(data_files, delete_files, scheduled, counts, next_file);
    a & b
}

// "no file id or UUID occurs twice over data files, delete files and scheduled"; keys, w and v are scratch.
pub fn files_distinct(
    data_files: &[u64],
    delete_files: &[u64],
    scheduled: &[u64],
    counts: Counts,
    keys: &mut [u64],
    w: &mut [usize],
    v: &mut [usize],
) -> bool
    requires { FilesLent data_files.now delete_files.now scheduled.now counts × FilesScratch counts keys.old w.old v.old }
    ensures { (w : Words)
        → w.data_files ≡ data_files.now
        → w.delete_files ≡ delete_files.now
        → w.scheduled ≡ scheduled.now
        → result ≡ files_distinct (load w counts) }
{
    let n = counts.data_files + counts.delete_files + counts.scheduled;
    let files = FileTables {
        data_files,
        delete_files,
        scheduled,
        counts,
    };
    files_differ(files, keys, &mut w[..n], &mut v[..n])
}

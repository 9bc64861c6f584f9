ghost use Rattle.std.specs.Prelude.{◌≡◌, ◌&&◌, List, ℕ, ◌+◌, ◌*◌, ◌≤◌, ◌<◌, eqb, length};
ghost use Rattle.lists.specs.Lists.{all, any};
ghost use Rattle.layout.specs.Fields.{table_size, column_size, data_file_size, delete_file_size};
ghost use Rattle.layout.specs.Words.{Words, load, schemas_in, table_at, tables_in, column_at, columns_in, data_file_at, data_files_in, delete_file_at, delete_files_in};
ghost use Rattle.ducklake.specs.Soundness.{contains, table_nests, column_nests, data_file_nests, delete_file_nests, lives_nest};
ghost use Rattle.lookup.specs.Order.{ById, SchemasById, TablesById, DataFilesById};
ghost use Rattle.lookup.specs.Versions.{with_life, versions_in};
ghost use Rattle.soundness_lives.specs.Lent.{Nestable};

use layout::outcome::Counts;
use layout::record::{ColumnRecord, DataFileRecord, DeleteFileRecord, SchemaRecord, TableRecord};
use lookup::find::{find_data_file_near, find_table_near};
use lookup::life::{Life, life_at, life_contains};
use records::column::column_table;
use records::data_file::data_file_table;
use records::delete_file::{delete_file_data_file, delete_file_table};
use records::table::table_schema;
use runs::fields::Fields;
use runs::hints::place_at;

// Whether the record of an id, most often at `near`, contains that life, where ids ascend: records with a life from the word `life` on.
fn is_held(ids: Fields, life: usize, id: u64, l: Life, near: usize) -> bool
    requires { ById ids.size ids.at ids.words.now ids.n × (life + 1 < ids.size) }
    ensures { result ≡ any (λ v. eqb v.id id && contains v (with_life l))
        (versions_in ids.entry.size ids.entry.at life ids.entry.words.now ids.entry.n) }
{
    let found = ids.find_near(id, near);
    match found {
        Some(i) => {
            let outer = life_at(ids.words, ids.size, life, i);
            life_contains(outer, l)
        }
        None => false,
    }
}

// "a table's life lies within its schema's"
// Stays: `is_held` is the one function of this and `data_file_nests`; each reads a record of its own type.
fn table_nests(schemas: &[u64], n: usize, tables: &[u64], i: usize, near: usize) -> bool
    requires { SchemasById schemas.now n × (table_size * i + table_size ≤ length tables.now) }
    ensures { (s t : List ℕ) → result ≡ table_nests (schemas_in schemas.now s n) (table_at tables.now t i) }
{
    let schema = table_schema(tables, i);
    let l = life_at(tables, TableRecord::SIZE, TableRecord::BEGIN, i);
    let ids = Fields {
        words: schemas,
        size: SchemaRecord::SIZE,
        at: SchemaRecord::ID,
        n,
    };
    is_held(ids, SchemaRecord::BEGIN, schema.0, l, near)
}

fn tables_nest(schemas: &[u64], n: usize, tables: &[u64], m: usize, places: &[u16]) -> bool
    requires { SchemasById schemas.now n × (table_size * m ≤ length tables.now) }
    ensures { (s t : List ℕ) → result ≡ all (table_nests (schemas_in schemas.now s n)) (tables_in tables.now t m) }
{
    (0..m).all(|i| table_nests(schemas, n, tables, i, place_at(places, i)))
}

// "a column's is its table's"
fn column_nests(tables: &[u64], n: usize, columns: &[u64], i: usize, near: usize) -> bool
    requires { TablesById tables.now n × (column_size * i + column_size ≤ length columns.now) }
    ensures { (t c : List ℕ) → result ≡ column_nests (tables_in tables.now t n) (column_at columns.now c i) }
{
    let table = column_table(columns, i);
    let l = life_at(columns, ColumnRecord::SIZE, ColumnRecord::BEGIN, i);
    let found = find_table_near(tables, n, table, near);
    match found {
        Some(j) => {
            let outer = life_at(tables, TableRecord::SIZE, TableRecord::BEGIN, j);
            outer == l
        }
        None => false,
    }
}

fn columns_nest(tables: &[u64], n: usize, columns: &[u64], m: usize, places: &[u16]) -> bool
    requires { TablesById tables.now n × (column_size * m ≤ length columns.now) }
    ensures { (t c : List ℕ) → result ≡ all (column_nests (tables_in tables.now t n)) (columns_in columns.now c m) }
{
    (0..m).all(|i| column_nests(tables, n, columns, i, place_at(places, i)))
}

// "a data file's lies within its table's"
fn data_file_nests(tables: &[u64], n: usize, data_files: &[u64], i: usize, near: usize) -> bool
    requires { TablesById tables.now n × (data_file_size * i + data_file_size ≤ length data_files.now) }
    ensures { (t : List ℕ) → result ≡ data_file_nests (tables_in tables.now t n) (data_file_at data_files.now i) }
{
    let table = data_file_table(data_files, i);
    let l = life_at(data_files, DataFileRecord::SIZE, DataFileRecord::BEGIN, i);
    let ids = Fields {
        words: tables,
        size: TableRecord::SIZE,
        at: TableRecord::ID,
        n,
    };
    is_held(ids, TableRecord::BEGIN, table.0, l, near)
}

fn data_files_nest(tables: &[u64], n: usize, data_files: &[u64], m: usize, places: &[u16]) -> bool
    requires { TablesById tables.now n × (data_file_size * m ≤ length data_files.now) }
    ensures { (t : List ℕ) → result ≡ all (data_file_nests (tables_in tables.now t n)) (data_files_in data_files.now m) }
{
    (0..m).all(|i| data_file_nests(tables, n, data_files, i, place_at(places, i)))
}

// "a delete file's within its data file's, and their table ids match"
fn delete_file_nests(
    data_files: &[u64],
    n: usize,
    delete_files: &[u64],
    i: usize,
    near: usize,
) -> bool
    requires { DataFilesById data_files.now n × (delete_file_size * i + delete_file_size ≤ length delete_files.now) }
    ensures { (p : List ℕ) → result ≡ delete_file_nests (data_files_in data_files.now n) (delete_file_at delete_files.now p i) }
{
    let file = delete_file_data_file(delete_files, i);
    let table = delete_file_table(delete_files, i);
    let l = life_at(
        delete_files,
        DeleteFileRecord::SIZE,
        DeleteFileRecord::BEGIN,
        i,
    );
    let found = find_data_file_near(data_files, n, file, near);
    match found {
        Some(j) => {
            let of_file = data_file_table(data_files, j);
            let outer = life_at(data_files, DataFileRecord::SIZE, DataFileRecord::BEGIN, j);
            let held = life_contains(outer, l);
            (of_file == table) & held
        }
        None => false,
    }
}

fn delete_files_nest(
    data_files: &[u64],
    n: usize,
    delete_files: &[u64],
    m: usize,
    places: &[u16],
) -> bool
    requires { DataFilesById data_files.now n × (delete_file_size * m ≤ length delete_files.now) }
    ensures { (p : List ℕ)
        → result ≡ all (delete_file_nests (data_files_in data_files.now n)) (delete_files_in delete_files.now p m) }
{
    (0..m).all(|i| delete_file_nests(data_files, n, delete_files, i, place_at(places, i)))
}

// Every record's life stands to that of the record it belongs to as it should. Of the records of each kind there are the places where those that they belong to
// most likely are.
pub fn lives_nest(
    schemas: &[u64],
    tables: &[u64],
    columns: &[u64],
    data_files: &[u64],
    delete_files: &[u64],
    counts: Counts,
    of_tables: &[u16],
    of_columns: &[u16],
    of_data_files: &[u16],
    of_delete_files: &[u16],
) -> bool
    requires { Nestable schemas.now tables.now columns.now data_files.now delete_files.now counts }
    ensures { (w : Words)
        → w.schemas ≡ schemas.now
        → w.tables ≡ tables.now
        → w.columns ≡ columns.now
        → w.data_files ≡ data_files.now
        → w.delete_files ≡ delete_files.now
        → result ≡ lives_nest (load w counts) }
{
    let a = tables_nest(schemas, counts.schemas, tables, counts.tables, of_tables);
    let b = columns_nest(tables, counts.tables, columns, counts.columns, of_columns);
    let c = data_files_nest(
        tables,
        counts.tables,
        data_files,
        counts.data_files,
        of_data_files,
    );
    let d = delete_files_nest(
        data_files,
        counts.data_files,
        delete_files,
        counts.delete_files,
        of_delete_files,
    );
    a & b & c & d
}

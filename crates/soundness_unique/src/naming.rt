ghost use Rattle.std.specs.Prelude.{◌≡◌, true, map, ℕ, ◌+◌, ◌*◌, ◌≤◌, ◌<◌, length, take};
ghost use Rattle.lists.specs.Lists.{range, all, pairwise};
ghost use Rattle.lists.specs.Runs.{overwrite};
ghost use Rattle.layout.specs.Fields.{column_size, column_table_word, column_begin_word};
ghost use Rattle.layout.specs.Words.{Words, load};
ghost use Rattle.ducklake.specs.Soundness.{names_apart};
ghost use Rattle.sorting.specs.Colliding.{Kept};
ghost use Rattle.sorting.specs.Keys.{Keyed};
ghost use Rattle.soundness_unique.specs.Naming.{name_key_size, order_key_size, group_of, is_inside, order_hash, order_key, KeysPut, names_apart_at, orders_apart_at, Living, NamesLiving, Scratch};
ghost use Rattle.soundness_unique.specs.Records.{HasRecord, HaveRecords, together, AllLive, has_key, apart_by, HasName, HaveNames, NamesLent, AllNamed, hash_of_name, key_of_name, names_apart_in};
ghost use Rattle.soundness_unique.specs.Comparable.{Named, NamesScratch};

use crate::left::left_places;
use layout::outcome::Counts;
use layout::record::{ColumnRecord, SchemaRecord, TableRecord};
use lookup::life::{life_at, lives_overlap};
use names::name_word;
use runs::fields::{Fields, field_at};
use sorting::colliding::{Round, absorb, hash, hash_pairs};
use sorting::distinct::places_apart;
use sorting::keys::{Keys, put_words};

// Names and orders are in no order. Records are sorted by what no two may share while both live, then by begin: if each has ended when the next that
// shares it begins, no two clash.

// Keys of names: the group, the words of the name, the begin.
const NAME_KEY_SIZE: usize = 6;

const NAME_KEY_BEGIN: usize = 5;

// Keys of orders: the table, the order, the begin.
const ORDER_KEY_SIZE: usize = 3;

const ORDER_KEY_BEGIN: usize = 2;

// Records that live from the number in the word `begin` up to that in the next.
#[derive(Clone, Copy)]
struct Records<'a> {
    table: &'a [u64],
    size: usize,
    begin: usize,
}

// Those with names: two with one number in the word `group` may not share a name, or where there is no such word, any two.
#[derive(Clone, Copy)]
struct NamedRecords<'a> {
    records: Records<'a>,
    group: Option<usize>,
    names: &'a [u8],
}

impl Records<'_> {
    // Whether the records at two places share a live number.
    fn live_together(self, i: usize, j: usize) -> bool
        requires { HasRecord self i × HasRecord self j × (self.begin + 1 < self.size) }
        ensures { result ≡ together self.entry i j }
    {
        let a = life_at(self.table, self.size, self.begin, i);
        let b = life_at(self.table, self.size, self.begin, j);
        lives_overlap(a, b)
    }
}

impl NamedRecords<'_> {
    // The number of the group of the record at place i, 0 where all are of one.
    fn group_at(self, i: usize) -> u64
        requires { HasRecord self.records i × (is_inside self.group self.records.size ≡ true) }
        ensures { result ≡ group_of self.entry.group self.entry.records.size self.entry.records.table.now i }
    {
        match self.group {
            None => 0,
            Some(word) => field_at(self.records.table, self.records.size, word, i),
        }
    }

    // The hash of its group and its name.
    fn name_hash(self, i: usize) -> usize
        requires { HasName self i }
        ensures { result ≡ hash_of_name self.entry i }
    {
        let a = absorb(0, self.group_at(i), Round::First);
        let b = absorb(a, name_word(self.names, i, 0), Round::First);
        let c = absorb(b, name_word(self.names, i, 1), Round::First);
        let d = absorb(c, name_word(self.names, i, 2), Round::First);
        let e = absorb(d, name_word(self.names, i, 3), Round::First);
        hash(e, Round::First)
    }

    // The hashes of as many records as there are places for them.
    fn hash_names(self, hashes: &mut [usize])
        requires { NamesLent self (length hashes.old) }
        ensures { hashes.new ≡ map (hash_of_name self.entry) (range 0 (length hashes.old)) }
    {
        for p in 0..hashes.len() {
            hashes[p] = self.name_hash(p);
        }
    }

    // Of as many records as there are places those whose group and name another has, by the first hash, put into w from its front on;
    // returns how many. The hashes are scratch afterwards.
    fn left_names(self, w: &mut [usize], hashes: &mut [usize]) -> usize
        requires { NamesLent self (length w.old) × (length hashes.old ≡ length w.old) }
        ensures { (length w.new ≡ length w.old) × (result ≤ length w.old)
            × ((n : ℕ) → length w.old ≡ n → Kept (hash_of_name self.entry) (range 0 n) (take result w.new)) }
    {
        self.hash_names(hashes);
        left_places(hashes, w)
    }

    // The key of the record at place i: the group, the words of the name, the begin.
    fn put_name_key(self, i: usize, keys: &mut [u64])
        requires { HasName self i × (self.records.begin < self.records.size) × (name_key_size * i + name_key_size ≤ length keys.old) }
        ensures { keys.new ≡ overwrite keys.old (name_key_size * i) (key_of_name self.entry i) }
    {
        let k = NAME_KEY_SIZE * i;
        let r = self.records;
        keys[k] = self.group_at(i);
        keys[k + 1] = name_word(self.names, i, 0);
        keys[k + 2] = name_word(self.names, i, 1);
        keys[k + 3] = name_word(self.names, i, 2);
        keys[k + 4] = name_word(self.names, i, 3);
        keys[k + NAME_KEY_BEGIN] = field_at(r.table, r.size, r.begin, i);
    }

    // The keys of the records at those places.
    fn put_name_keys(self, w: &[usize], keys: &mut [u64])
        requires { HaveNames self w.now × (self.records.begin < self.records.size) × Keyed name_key_size keys.old w.now }
        ensures { (length keys.new ≡ length keys.old)
            × KeysPut (key_of_name self.entry) name_key_size w.now keys.new }
    {
        for &i in w {
            self.put_name_key(i, keys);
        }
    }
}

// Whether no two of the records at those places share both the first words of their keys, all but the begin, and a live number; v is scratch.
fn records_apart(
    keys: &[u64],
    used: usize,
    records: Records,
    w: &mut [usize],
    v: &mut [usize],
) -> bool
    requires { Keyed (used + 1) keys.now w.old × HaveRecords records w.old × (used < name_key_size)
        × (records.begin + 1 < records.size) × (length v.old ≡ length w.old) }
    ensures { (n : ℕ) → AllLive records.entry n → all (has_key used keys.now records.entry n) w.old ≡ true
        → result ≡ pairwise (apart_by used keys.now records.entry) w.old }
{
    let keys = Keys {
        words: keys,
        size: used + 1,
    };
    places_apart(
        keys,
        used,
        w,
        v,
        |i, j| !keys.same(used, i, j) || !records.live_together(i, j),
    )
}

// Whether n records of one group that share a live number have different names: those whose group and name no other has, by the first hash, need no
// key. keys, w and v are scratch, which may be longer.
fn names_apart_by(
    named: NamedRecords,
    n: usize,
    keys: &mut [u64],
    w: &mut [usize],
    v: &mut [usize],
) -> bool
    requires { AllNamed named n × Scratch name_key_size n keys.old w.old v.old }
    ensures { result ≡ pairwise (names_apart_in named.entry) (range 0 n) }
{
    let w = &mut w[..n];
    let v = &mut v[..n];
    let r = named.left_names(w, v);
    named.put_name_keys(&w[..r], keys);
    records_apart(
        keys,
        NAME_KEY_BEGIN,
        named.records,
        &mut w[..r],
        &mut v[..r],
    )
}

// The keys of the columns at those places: the table, the order, the begin.
fn put_order_keys(columns: &[u64], w: &[usize], keys: &mut [u64])
    requires { Keyed column_size columns.now w.now × Keyed order_key_size keys.old w.now }
    ensures { (length keys.new ≡ length keys.old)
        × KeysPut (order_key columns.now) order_key_size w.now keys.new }
{
    let size = ColumnRecord::SIZE;
    let table = ColumnRecord::TABLE;
    let order = ColumnRecord::ORDER;
    let begin = ColumnRecord::BEGIN;
    put_words(columns, size, table, w, keys, ORDER_KEY_SIZE, 0);
    put_words(columns, size, order, w, keys, ORDER_KEY_SIZE, 1);
    put_words(
        columns,
        size,
        begin,
        w,
        keys,
        ORDER_KEY_SIZE,
        ORDER_KEY_BEGIN,
    );
}

// Of as many columns as there are places those whose table and order another has, by the first hash, as `left_names` does.
fn left_orders(columns: &[u64], w: &mut [usize], hashes: &mut [usize]) -> usize
    requires { (column_size * length w.old ≤ length columns.now) × (length hashes.old ≡ length w.old) }
    ensures { (length w.new ≡ length w.old) × (result ≤ length w.old)
        × ((n : ℕ) → length w.old ≡ n → Kept (order_hash columns.now) (range 0 n) (take result w.new)) }
{
    let size = ColumnRecord::SIZE;
    let first = ColumnRecord::TABLE;
    let second = ColumnRecord::ORDER;
    hash_pairs(columns, size, first, second, w.len(), hashes, 0);
    left_places(hashes, w)
}

// Whether n columns of one table that share a live number have different orders: those whose table and order no other has, by the first hash, need no
// key. keys, w and v are scratch, which may be longer.
// Stays: one function with `names_apart_by`, which took the hash and the keys as closures, is no plainer: their contracts are longer than these lines.
fn orders_apart_by(
    columns: &[u64],
    n: usize,
    keys: &mut [u64],
    w: &mut [usize],
    v: &mut [usize],
) -> bool
    requires { Living column_size column_begin_word columns.now n × Scratch order_key_size n keys.old w.old v.old }
    ensures { result ≡ pairwise (orders_apart_at columns.now) (range 0 n) }
{
    let w = &mut w[..n];
    let v = &mut v[..n];
    let r = left_orders(columns, w, v);
    put_order_keys(columns, &w[..r], keys);
    let records = Records {
        table: columns,
        size: ColumnRecord::SIZE,
        begin: ColumnRecord::BEGIN,
    };
    records_apart(keys, ORDER_KEY_BEGIN, records, &mut w[..r], &mut v[..r])
}

// The same: at once where columns ascend by table and order, which is how calls write them.
fn orders_apart(
    columns: &[u64],
    n: usize,
    keys: &mut [u64],
    w: &mut [usize],
    v: &mut [usize],
) -> bool
    requires { Living column_size column_begin_word columns.now n × Scratch order_key_size n keys.old w.old v.old }
    ensures { result ≡ pairwise (orders_apart_at columns.now) (range 0 n) }
{
    let of_tables = Fields {
        words: columns,
        size: ColumnRecord::SIZE,
        at: ColumnRecord::TABLE,
        n,
    };
    let ascend = of_tables.ascend_then(ColumnRecord::ORDER);
    if ascend {
        return true;
    }
    orders_apart_by(columns, n, keys, w, v)
}

// Whether columns of one table that share a live number have different names: at once where each is the only one of its table. keys, w and v are scratch.
fn column_names_apart(
    columns: &[u64],
    names: &[u8],
    n: usize,
    keys: &mut [u64],
    w: &mut [usize],
    v: &mut [usize],
) -> bool
    requires { NamesLiving column_size (Some column_table_word) column_begin_word columns.now names.now n
        × Scratch name_key_size n keys.old w.old v.old }
    ensures { result ≡ pairwise (names_apart_at column_size (Some column_table_word) column_begin_word columns.now names.now) (range 0 n) }
{
    let of_tables = Fields {
        words: columns,
        size: ColumnRecord::SIZE,
        at: ColumnRecord::TABLE,
        n,
    };
    let alone = of_tables.ascend();
    if alone {
        return true;
    }
    let records = Records {
        table: columns,
        size: ColumnRecord::SIZE,
        begin: ColumnRecord::BEGIN,
    };
    let named = NamedRecords {
        records,
        group: Some(ColumnRecord::TABLE),
        names,
    };
    names_apart_by(named, n, keys, w, v)
}

// "schemas, tables of one schema and columns of one table with a common live snapshot number have different names, such columns also different
// orders"; keys, w and v are scratch.
pub fn names_apart(
    schemas: &[u64],
    schema_names: &[u8],
    tables: &[u64],
    table_names: &[u8],
    columns: &[u64],
    column_names: &[u8],
    counts: Counts,
    keys: &mut [u64],
    w: &mut [usize],
    v: &mut [usize],
) -> bool
    requires { Named schemas.now schema_names.now tables.now table_names.now columns.now column_names.now counts
        × NamesScratch counts keys.old w.old v.old }
    ensures { (w : Words)
        → w.schemas ≡ schemas.now
        → w.schema_names ≡ schema_names.now
        → w.tables ≡ tables.now
        → w.table_names ≡ table_names.now
        → w.columns ≡ columns.now
        → w.column_names ≡ column_names.now
        → result ≡ names_apart (load w counts) }
{
    let of_schemas = NamedRecords {
        records: Records {
            table: schemas,
            size: SchemaRecord::SIZE,
            begin: SchemaRecord::BEGIN,
        },
        group: None,
        names: schema_names,
    };
    let of_tables = NamedRecords {
        records: Records {
            table: tables,
            size: TableRecord::SIZE,
            begin: TableRecord::BEGIN,
        },
        group: Some(TableRecord::SCHEMA),
        names: table_names,
    };
    let a = names_apart_by(of_schemas, counts.schemas, keys, w, v);
    let b = names_apart_by(of_tables, counts.tables, keys, w, v);
    let c = column_names_apart(columns, column_names, counts.columns, keys, w, v);
    let d = orders_apart(columns, counts.columns, keys, w, v);
    a & b & (c & d)
}

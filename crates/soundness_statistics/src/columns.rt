ghost use Rattle.std.specs.Prelude.{◌≡◌, ℕ, ◌*◌, ◌≤◌, true, List, length};
ghost use Rattle.lists.specs.Lists.{all};
ghost use Rattle.layout.specs.Fields.{table_size};
ghost use Rattle.layout.specs.Words.{Words, load, tables_in, columns_in};
ghost use Rattle.ducklake.specs.Soundness.{lives_sound, lives_nest, column_counts_sound};
ghost use Rattle.lookup.specs.Order.{TablesById, ColumnsByTable};
ghost use Rattle.soundness_statistics.specs.Counted.{columns_counted};

use layout::number::COLUMN_LIMIT;
use layout::outcome::Counts;
use lookup::block::columns_between;
use records::table::table_id;
use std::num::{wrapping_add_usize, wrapping_sub_usize};

// Whether each table has 1 to 16 columns on record. Both ascend by table, so those of the next table most often follow.
// They are sought where they would stand if they were as many as those of this one.
fn columns_counted(tables: &[u64], n: usize, columns: &[u64], m: usize) -> bool
    requires { (table_size * n ≤ length tables.now) × ColumnsByTable columns.now m }
    ensures { (t c : List ℕ) → result ≡ all (columns_counted (columns_in columns.now c m)) (tables_in tables.now t n) }
{
    let mut near: usize = 0;
    let mut last: usize = 0;
    for i in 0..n {
        let table = table_id(tables, i);
        let own = columns_between(columns, m, table, near, last);
        near = own.end;
        let k = own.end - own.start;
        last = wrapping_add_usize(near, wrapping_sub_usize(k, 1));
        if !((1 <= k) & (k <= COLUMN_LIMIT)) {
            return false;
        }
    }
    true
}

// "A table has 1 to 16 live columns at each retained snapshot where it lives." A column's life is its table's, so at each of these snapshots the
// table has all its columns, and there is one such snapshot: it is enough to count those on record.
pub fn column_counts_sound(tables: &[u64], columns: &[u64], counts: Counts) -> bool
    requires { TablesById tables.now counts.tables × ColumnsByTable columns.now counts.columns }
    ensures { (w : Words) → w.tables ≡ tables.now → w.columns ≡ columns.now
        → lives_sound (load w counts) ≡ true → lives_nest (load w counts) ≡ true → result ≡ column_counts_sound (load w counts) }
{
    columns_counted(tables, counts.tables, columns, counts.columns)
}

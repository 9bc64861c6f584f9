ghost use Rattle.std.specs.Prelude.{◌≡◌, not, List, map, ℕ, ◌+◌, ◌*◌, ◌≤◌, ◌<◌, length};
ghost use Rattle.lists.specs.Lists.{range, all, pairwise};
ghost use Rattle.lists.specs.Runs.{from};
ghost use Rattle.layout.specs.Names.{name_size, name_at};
ghost use Rattle.ducklake.specs.Arguments.{clashes, column_argument, column_fits, columns_whole, columns_fit};
ghost use Rattle.table_creation.specs.Columns.{ColumnsLent};

use crate::argument::{column_argument, column_count};
use column_types::is_type;
use layout::number::{COLUMN_ARGUMENT_SIZE, COLUMN_LIMIT, NAME_SIZE};
use names::{is_name, same_name};

// Whether the argument has 1 to 16 columns, two words each, and a name place for each.
fn columns_are_whole(columns: &[u64], names: &[u8]) -> bool
    ensures { result ≡ columns_whole columns.now names.now }
{
    let n = column_count(columns);
    if COLUMN_LIMIT < n {
        return false;
    }
    (columns.len() == COLUMN_ARGUMENT_SIZE * n) & (names.len() == NAME_SIZE * n) & (1 <= n)
}

// "unknown type, bad flag, bad (..) name": whether the column i has none of these.
fn column_fits(columns: &[u64], names: &[u8], n: usize, i: usize) -> bool
    requires { ColumnsLent columns.now names.now n × (i < n) }
    ensures { (table : ℕ) → result ≡ column_fits (column_argument table columns.now names.now i) }
{
    let column = column_argument(columns, i);
    let typed = is_type(column.type_code);
    let named = is_name(names, i);
    typed & (column.nulls_allowed <= 1) & named
}

fn each_column_fits(columns: &[u64], names: &[u8], n: usize) -> bool
    requires { ColumnsLent columns.now names.now n }
    ensures { (table : ℕ) → result ≡ all column_fits (map (column_argument table columns.now names.now) (range 0 n)) }
{
    for i in 0..n {
        if !column_fits(columns, names, n, i) {
            return false;
        }
    }
    true
}

// Whether the names at two places may not stand beside each other.
fn names_clash(names: &[u8], i: usize, j: usize) -> bool
    requires { (name_size * i + name_size ≤ length names.now) × (name_size * j + name_size ≤ length names.now) }
    ensures { result ≡ clashes (name_at names.now i) (name_at names.now j) }
{
    same_name(names, i, names, j)
}

// "repeated name": whether the name at the place i is none of the later ones.
fn name_is_apart(names: &[u8], n: usize, i: usize) -> bool
    requires { (name_size * n ≤ length names.now) × (i < n) }
    ensures { (table : ℕ) (words : List ℕ) → result ≡ all (λ c. not (clashes (name_at names.now i) c.name))
        (from (column_argument table words names.now) (i + 1) n) }
{
    for j in i + 1..n {
        if names_clash(names, i, j) {
            return false;
        }
    }
    true
}

fn names_are_apart(names: &[u8], n: usize) -> bool
    requires { name_size * n ≤ length names.now }
    ensures { (table : ℕ) (words : List ℕ) → result ≡ pairwise (λ a b. not (clashes a.name b.name))
        (map (column_argument table words names.now) (range 0 n)) }
{
    for i in 0..n {
        if !name_is_apart(names, n, i) {
            return false;
        }
    }
    true
}

// "column list: not 1 to 16, unknown type, bad flag, bad or repeated name": names are compared once there are few.
pub fn columns_fit(columns: &[u64], names: &[u8]) -> bool
    ensures { (table : ℕ) → result ≡ columns_fit table columns.now names.now }
{
    let whole = columns_are_whole(columns, names);
    if !whole {
        return false;
    }
    let n = column_count(columns);
    let formed = each_column_fits(columns, names, n);
    let apart = names_are_apart(names, n);
    formed & apart
}

ghost use Rattle.std.specs.Prelude.{◌≡◌, ◌+◌, ◌*◌, ◌<◌, ◌≤◌, length, slice_set};
ghost use Rattle.lists.specs.Runs.{set_where, each_record};

use crate::fields::field_at;

// The word `at` of the record i becomes x.
pub fn set_field(w: &mut [u64], size: usize, at: usize, i: usize, x: u64)
    requires { (size * i + size ≤ length w.old) × (at < size) }
    ensures { w.new ≡ slice_set w.old (size * i + at) x }
{
    w[size * i + at] = x;
}

// In each of the first n records whose word `key` is k and whose word `at` is `old`, the word `at` becomes `new`.
pub fn set_where(
    w: &mut [u64],
    size: usize,
    key: usize,
    at: usize,
    n: usize,
    k: u64,
    old: u64,
    new: u64,
)
    requires { (size * n ≤ length w.old) × (key < size) × (at < size) }
    ensures { w.new ≡ each_record size (set_where key at k old new) w.old n }
{
    for i in 0..n {
        let x = field_at(w, size, key, i);
        let y = field_at(w, size, at, i);
        if (x == k) & (y == old) {
            set_field(w, size, at, i, new);
        }
    }
}

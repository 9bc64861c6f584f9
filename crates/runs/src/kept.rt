// Rows of a run, of which some stay: gaps close, order stays, freed places become zero.
ghost use Rattle.std.specs.Prelude.{◌≡◌, ◌*◌, ◌≤◌, length, replicate};
ghost use Rattle.lists.specs.Pieces.{row_pieces, CompactedBy, flagged};

use crate::flags::is_flagged;

// Every place becomes x. `fill` of the library asks of a type parameter that its `clone` gives the value itself, which no clause of `Copy` says.
fn fill<T: Copy>(w: &mut [T], x: T)
    ensures { w.new ≡ replicate (length w.old) x }
{
    for i in 0..w.len() {
        w[i] = x;
    }
}

// The flagged of n rows of `size` places; how many they are.
pub fn keep_rows<T: Copy>(w: &mut [T], size: usize, n: usize, flags: &[u8], zero: T) -> usize
    requires { (size * n ≤ length w.old) × (n ≤ length flags.now) }
    ensures { CompactedBy zero (row_pieces size) (flagged flags.now) n w.old (size * result) w.new }
{
    let mut kept: usize = 0;
    for i in 0..n {
        if is_flagged(flags, i) {
            let at = size * i;
            w.copy_within(at..at + size, size * kept);
            kept += 1;
        }
    }
    fill(&mut w[size * kept..size * n], zero);
    kept
}

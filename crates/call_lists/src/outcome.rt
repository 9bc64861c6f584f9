ghost use Rattle.std.specs.Prelude.{◌≡◌, ◌+◌, ◌*◌, ◌≤◌, length};
ghost use Rattle.lists.specs.Runs.{overwrite};
ghost use Rattle.call_lists.specs.Playing.{told_size, told_words};

use layout::outcome::{Counts, Outcome};

// What is told of a call: its number, its place and its answer's length.
pub const TOLD_SIZE: usize = 3;

// What a list of calls gives: how many were played, the words of all their answers, the catalogue record.
#[repr(C)]
#[derive(Clone, Copy)]
pub struct Session {
    pub played: usize,
    pub answered: usize,
    pub counts: Counts,
}

// Tells the outcome of the call i.
pub fn write_outcome(w: &mut [u64], i: usize, o: Outcome)
    requires { told_size * i + told_size ≤ length w.old }
    ensures { w.new ≡ overwrite w.old (told_size * i) (told_words o) }
{
    let k = TOLD_SIZE * i;
    w[k] = o.number;
    w[k + 1] = o.place;
    w[k + 2] = o.length as u64;
}

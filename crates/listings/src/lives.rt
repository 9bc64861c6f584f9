ghost use Rattle.std.specs.Prelude.{◌≡◌, ◌+◌, ◌*◌, ◌≤◌, ◌<◌, length};
ghost use Rattle.ducklake.specs.Liveness.{live};
ghost use Rattle.lookup.specs.Versions.{life_at, with_life};
ghost use Rattle.listings.specs.Places.{places_live};

use layout::number::SnapshotId;
use lookup::life::{is_live, life_at};

// Whether the record at the place i is live at s, of records of `size` words with a life from the word `begin` on.
pub fn is_live_at(run: &[u64], size: usize, begin: usize, i: usize, s: SnapshotId) -> bool
    requires { (size * i + size ≤ length run.now) × (begin + 1 < size) }
    ensures { result ≡ live s.0 (with_life (life_at size begin run.now i)) }
{
    let l = life_at(run, size, begin, i);
    is_live(l, s)
}

// How many of the records from `start` up to `end` are live at s.
pub fn count_live(
    run: &[u64],
    size: usize,
    begin: usize,
    start: usize,
    end: usize,
    s: SnapshotId,
) -> usize
    requires { (size * «end» ≤ length run.now) × (begin + 1 < size) }
    ensures { result ≡ length (places_live size begin run.now s.0 start «end») }
{
    let mut k: usize = 0;
    for i in start..end {
        if is_live_at(run, size, begin, i, s) {
            k += 1;
        }
    }
    k
}

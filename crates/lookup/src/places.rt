// Where references lead, most likely: each is sought once, and whoever wants its record again looks there first. Nothing is promised of these places.
ghost use Rattle.std.specs.Prelude.{◌*◌, ◌≤◌, ◌<◌, length};
ghost use Rattle.lookup.specs.Order.{ById};

use runs::fields::Fields;
use runs::hints::{fill_hints, place_at, put_place};

// For the word `word` of each of m records, the place of the record that has it as its word `id_word`, of n records. The hints are scratch.
pub fn locate(
    w: &[u64],
    size: usize,
    word: usize,
    m: usize,
    to: &[u64],
    to_size: usize,
    id_word: usize,
    n: usize,
    hints: &mut [u16],
    places: &mut [u16],
)
    requires { (size * m ≤ length w.now) × (word < size) × ById to_size id_word to.now n }
{
    let sought = Fields {
        words: w,
        size,
        at: word,
        n: m,
    };
    let ids = Fields {
        words: to,
        size: to_size,
        at: id_word,
        n,
    };
    let scale = fill_hints(ids, hints);
    for i in 0..m {
        let x = sought.get(i);
        let near = scale.hint(hints, x);
        let found = ids.find_near(x, near);
        put_place(places, i, found.unwrap_or(near));
    }
}

// For each place the first of the m records that lead there, where those of one place stand together.
pub fn block_starts(places: &[u16], m: usize, starts: &mut [u16]) {
    for i in (0..m).rev() {
        let j = place_at(places, i);
        put_place(starts, j, i);
    }
}

// Where the records that lead to the place j begin, of m records: the first place has the first ones.
pub fn block_start(starts: &[u16], j: usize, m: usize) -> usize {
    let start = place_at(starts, j);
    if (0 < j) & (start == 0) {
        return m;
    }
    start
}

// Where words that ascend may stand: a table from the leading digits of a word to a place. Any place would do, so nothing is promised of it; a search that
// begins there looks at few.
ghost use Rattle.std.specs.Prelude.{◌<◌};

use crate::fields::Fields;

// The first word, and how many digits of a distance from it are left aside.
#[derive(Clone, Copy)]
pub struct Scale {
    pub first: u64,
    pub shift: u64,
    pub ghost in_word: { shift < 64 },
}

impl Scale {
    // Where to look for x first.
    pub fn hint(self, hints: &[u16], x: u64) -> usize {
        if x < self.first {
            return 0;
        }
        place_at(hints, ((x - self.first) >> self.shift) as usize)
    }
}

const WORD_BITS: u64 = 64;

// Places are kept in 16 bits, which those of a table fit.
const PLACES: usize = 65536;

// The place kept at i.
pub fn place_at(places: &[u16], i: usize) -> usize {
    places.get(i).map_or(0, |place| usize::from(*place))
}

pub fn put_place(places: &mut [u16], i: usize, place: usize) {
    if let Some(kept) = places.get_mut(i) {
        *kept = (place % PLACES) as u16;
    }
}

// The fewest digits to leave aside for a distance to be below n.
fn shift_below(span: u64, n: usize) -> u64
    ensures { result < 64 }
{
    for shift in 0..WORD_BITS - 1 {
        if span >> shift < n as u64 {
            return shift;
        }
    }
    WORD_BITS - 1
}

// Writes the place of each word where `hint` looks for it.
pub fn fill_hints(words: Fields, hints: &mut [u16]) -> Scale {
    if words.n == 0 {
        return Scale { first: 0, shift: 0 };
    }
    let first = words.get(0);
    let last = words.get(words.n - 1);
    if last < first {
        return Scale { first: 0, shift: 0 };
    }
    let k = hints.len();
    let shift = shift_below(last - first, k);
    for i in (0..words.n).rev() {
        let x = words.get(i);
        if first <= x {
            put_place(hints, ((x - first) >> shift) as usize, i);
        }
    }
    Scale { first, shift }
}

// Where a search in words that never fall looks. Any place between its ends would do: these are chosen so that it looks at few.
ghost use Rattle.std.specs.Prelude.{◌≡◌, ◌<◌, ◌≤◌};

use std::num::wrapping_add_usize;

// How far the search for a word has come: the place it looked at last, how many places to go on from there, and how many it goes on at least.
#[derive(Clone, Copy)]
pub struct Search {
    last: usize,
    step: usize,
    reach: usize,
}

impl Search {
    // A search that begins at `near`.
    pub fn from(near: usize) -> Search
        ensures { (result.last ≡ near) × (result.step ≡ 0) × (result.reach ≡ 1) }
    {
        Search {
            last: near,
            step: 0,
            reach: 1,
        }
    }

    // The place to look at: so many steps beyond the last one from the end that it became, and at most half way to the other. At first `near` itself.
    pub fn place(&self, lo: usize, hi: usize) -> usize
        requires { lo < hi }
        ensures { (lo ≤ result) × (result < hi) }
    {
        let s = self.step.min((hi - lo) / 2);
        if self.last < lo {
            return lo + s;
        }
        if hi <= self.last {
            return hi - 1 - s;
        }
        self.last
    }

    // The word y stands at the place m, and x is sought: it goes on past as many words as there are numbers between them, and at least a quarter of its
    // reach, which doubles.
    pub fn found(&mut self, m: usize, x: u64, y: u64) {
        self.last = m;
        self.step = (x.abs_diff(y).saturating_sub(1) as usize).max(self.reach / 4);
        self.reach = wrapping_add_usize(self.reach, self.reach);
    }
}

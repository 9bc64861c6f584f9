ghost use Rattle.std.specs.Prelude.{◌≡◌, ◌+◌, ◌*◌, ◌<◌, ◌≤◌, true, ◌&&◌, leb, length, nat_eq, nat_le, nat_lt};
ghost use Rattle.lists.specs.Lists.{all, before, chained, count, place};
ghost use Rattle.lists.specs.Runs.{field, pairs};

use crate::probes::Search;
use std::num::wrapping_add_usize;

// The word `at` of each record of a run, records of `size` words.
#[tactic(auto, unfolding(lists::specs::Runs::field))]
pub fn field_at(w: &[u64], size: usize, at: usize, i: usize) -> u64
    requires { (size * i + size ≤ length w.now) × (at < size) }
    ensures { result ≡ field size at w.now i }
{
    w[size * i + at]
}

// The word `at` of each of the first n records of a run, records of `size` words.
#[derive(Clone, Copy)]
pub struct Fields<'a> {
    pub words: &'a [u64],
    pub size: usize,
    pub at: usize,
    pub n: usize,
    pub ghost lent: { size * n ≤ length words.now },
    pub ghost inside: { at < size },
}

// Words so far apart, or so many, are not taken to rise evenly: two numbers below this have a product that fits a word.
const WIDE: u64 = 4294967296;

impl<'a> Fields<'a> {
    ghost use Rattle.runs.specs.Fields.{values};

    pub fn get(self, i: usize) -> u64
        requires { i < self.n }
        ensures { result ≡ field self.entry.size self.entry.at self.entry.words.now i }
    {
        field_at(self.words, self.size, self.at, i)
    }

    // Whether they ascend strictly.
    pub fn ascend(self) -> bool
        ensures { result ≡ chained nat_lt (values self.entry) }
    {
        for i in 1..self.n {
            let a = self.get(i - 1);
            let b = self.get(i);
            if b <= a {
                return false;
            }
        }
        true
    }

    // Whether the records ascend by this word, and where that is equal by their word `second`.
    pub fn ascend_then(self, second: usize) -> bool
        requires { second < self.size }
        ensures { result ≡ chained before (pairs self.entry.size self.entry.at second self.entry.words.now self.entry.n) }
    {
        let then = Fields {
            words: self.words,
            size: self.size,
            at: second,
            n: self.n,
        };
        for i in 1..self.n {
            let a = self.get(i - 1);
            let b = then.get(i - 1);
            let c = self.get(i);
            let d = then.get(i);
            let ok = (a < c) | ((a == c) & (b < d));
            if !ok {
                return false;
            }
        }
        true
    }

    // Whether they are all below the limit.
    pub fn below(self, limit: u64) -> bool
        ensures { result ≡ all (λ x. nat_lt x limit) (values self.entry) }
    {
        for i in 0..self.n {
            if limit <= self.get(i) {
                return false;
            }
        }
        true
    }

    // The same, where they ascend: the last is the highest.
    // Stays: a struct for words in order, of two orders, would stand around this one at each call; the order is asked.
    pub fn ascending_below(self, limit: u64) -> bool
        requires { chained nat_lt (values self) ≡ true }
        ensures { result ≡ all (λ x. nat_lt x limit) (values self.entry) }
    {
        self.n == 0 || self.get(self.n - 1) < limit
    }

    // Whether they are all from `low` to `high`. Stays: one loop for both tests would take a closure with clauses of its own.
    pub fn between(self, low: u64, high: u64) -> bool
        ensures { result ≡ all (λ x. nat_le low x && nat_le x high) (values self.entry) }
    {
        for i in 0..self.n {
            let a = self.get(i);
            let ok = (low <= a) & (a <= high);
            if !ok {
                return false;
            }
        }
        true
    }

    // How many are below x, where they never fall: a search from the place `near` on.
    fn count_below_from(self, x: u64, near: usize) -> usize
        requires { chained leb (values self) ≡ true }
        ensures { result ≡ count (λ y. nat_lt y x) (values self.entry) }
    {
        let mut search = Search::from(near);
        let mut lo: usize = 0;
        let mut hi = self.n;
        // Stays: where it looks next depends on what it finds.
        while lo < hi {
            let m = search.place(lo, hi);
            let y = self.get(m);
            search.found(m, x, y);
            if y < x {
                lo = m + 1;
            } else {
                hi = m;
            }
        }
        lo
    }

    // The same: most often that is `near`.
    pub fn count_below(self, x: u64, near: usize) -> usize
        requires { chained leb (values self) ≡ true }
        ensures { result ≡ count (λ y. nat_lt y x) (values self.entry) }
    {
        if near < self.n {
            let z = self.get(near);
            if x <= z {
                if near == 0 {
                    return 0;
                }
                let y = self.get(near - 1);
                if y < x {
                    return near;
                }
            }
        }
        self.count_below_from(x, near)
    }

    // How many are at most x, which are those below x + 1: most often `near` has the last of them.
    pub fn count_through(self, x: u64, near: usize) -> usize
        requires { chained leb (values self) ≡ true }
        ensures { result ≡ count (λ y. leb y x) (values self.entry) }
    {
        let next = wrapping_add_usize(near, 1);
        if (0 < next) & (next < self.n) {
            let y = self.get(next - 1);
            let z = self.get(next);
            if (y <= x) & (x < z) {
                return next;
            }
        }
        // All are, where the last is; else a word is above x, and x + 1 is one.
        if self.n == 0 || self.get(self.n - 1) <= x {
            return self.n;
        }
        self.count_below_from(x + 1, near)
    }

    // The place of x, where they ascend strictly: a search from the place `near` on. Not by `count_below_from`: this one ends where it meets x.
    fn find_from(self, x: u64, near: usize) -> Option<usize>
        requires { chained nat_lt (values self) ≡ true }
        ensures { result ≡ place (λ y. nat_eq y x) 0 (values self.entry) }
    {
        let mut search = Search::from(near);
        let mut lo: usize = 0;
        let mut hi = self.n;
        // Stays: where it looks next depends on what it finds.
        while lo < hi {
            let m = search.place(lo, hi);
            let y = self.get(m);
            if y == x {
                return Some(m);
            }
            search.found(m, x, y);
            if x < y {
                hi = m;
            } else {
                lo = m + 1;
            }
        }
        None
    }

    // The same: most often it is at `near`.
    pub fn find_near(self, x: u64, near: usize) -> Option<usize>
        requires { chained nat_lt (values self) ≡ true }
        ensures { result ≡ place (λ y. nat_eq y x) 0 (values self.entry) }
    {
        if near < self.n {
            let y = self.get(near);
            if y == x {
                return Some(near);
            }
        }
        self.find_from(x, near)
    }

    // The same: most ids are where they would be if none were missing.
    pub fn find(self, x: u64) -> Option<usize>
        requires { chained nat_lt (values self) ≡ true }
        ensures { result ≡ place (λ y. nat_eq y x) 0 (values self.entry) }
    {
        self.find_near(x, self.interpolate(x))
    }

    // Where x stands if they rise evenly from the first to the last, as ids do: a search may begin anywhere, so nothing is promised of it.
    pub fn interpolate(self, x: u64) -> usize {
        if self.n == 0 {
            return 0;
        }
        let first = self.get(0);
        let last = self.get(self.n - 1);
        if x <= first {
            return 0;
        }
        if last <= x {
            return self.n - 1;
        }
        let d = x - first;
        let span = last - first;
        let m = self.n as u64;
        if WIDE <= span || WIDE <= m {
            return self.n / 2;
        }
        (d * m / (span + 1)) as usize
    }
}

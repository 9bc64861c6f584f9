ghost use Rattle.std.specs.Prelude.{◌≡◌, not, ℕ, Bool, ◌≤◌};
ghost use Rattle.lists.specs.Lists.{pairwise, chained};
ghost use Rattle.sorting.specs.Ordered.{same, Sortable, Asked, Tells, Decided};

use crate::colliding::{Round, thin};
use crate::keys::Keys;
use crate::sort::sort;

// Whether each two of the places that follow each other are apart.
fn neighbours_apart<F: Fn(usize, usize) -> bool>(w: &[usize], apart: F) -> bool
    requires { Asked (F.pre apart) w.now }
    ensures { (q : ℕ → ℕ → Bool) → Tells (F.post apart) q w.now → result ≡ chained q w.now }
{
    for i in 1..w.len() {
        let ok = apart(w[i - 1], w[i]);
        if !ok {
            return false;
        }
    }
    true
}

// Whether any two of those places are apart, where two with other first words are, and in the order of keys those that follow each other decide.
// Places whose first words no other has, by the second hash, need no sort. v is scratch.
pub fn places_apart<F: Fn(usize, usize) -> bool>(
    keys: Keys,
    used: usize,
    w: &mut [usize],
    v: &mut [usize],
    apart: F,
) -> bool
    requires { Sortable keys w.old v.old × (used ≤ keys.size) × Asked (F.pre apart) w.old }
    ensures { (q : ℕ → ℕ → Bool) → Tells (F.post apart) q w.old → Decided keys.entry used q w.old → result ≡ pairwise q w.old }
{
    let r = thin(keys, used, Round::Second, w, v);
    let left = &mut w[..r];
    sort(keys, left, &mut v[..r]);
    neighbours_apart(left, apart)
}

// Whether no two of the keys at those places are equal; v is scratch.
pub fn places_differ(keys: Keys, w: &mut [usize], v: &mut [usize]) -> bool
    requires { Sortable keys w.old v.old }
    ensures { result ≡ pairwise (λ i j. not (same keys.entry.size keys.entry i j)) w.old }
{
    places_apart(keys, keys.size, w, v, |i, j| !keys.same(keys.size, i, j))
}

ghost use Rattle.std.specs.Prelude.{◌≡◌, ℕ, ◌≤◌, true, map, length, take, nat_lt};
ghost use Rattle.lists.specs.Lists.{range, all};
ghost use Rattle.sorting.specs.Colliding.{hash_limit, Kept};

use sorting::colliding::keep_colliding;
use sorting::sort::number;

// Of the places 0, 1 and so on those whose hash another has, put into w from its front on; returns how many. The hashes are scratch afterwards.
pub fn left_places(hashes: &mut [usize], w: &mut [usize]) -> usize
    requires { (length hashes.old ≡ length w.old) × (all (λ h. nat_lt h hash_limit) hashes.old ≡ true) }
    ensures { (length w.new ≡ length w.old) × (result ≤ length w.old)
        × ((hash : ℕ → ℕ) (n : ℕ) → length w.old ≡ n → hashes.old ≡ map hash (range 0 n) → Kept hash (range 0 n) (take result w.new)) }
{
    number(w);
    keep_colliding(hashes, w)
}

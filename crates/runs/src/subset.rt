ghost use Rattle.std.specs.Prelude.{◌≡◌, ◌+◌, true, nat_lt};
ghost use Rattle.lists.specs.Lists.{all, chained, has};

// Whether every word of a is one of b, where both ascend: in one pass.
pub fn is_subset(a: &[u64], b: &[u64]) -> bool
    requires { (chained nat_lt a.now ≡ true) × (chained nat_lt b.now ≡ true) }
    ensures { result ≡ all (λ x. has x b.now) a.now }
{
    let mut i: usize = 0;
    for &y in b {
        if i == a.len() {
            return true;
        }
        let x = a[i];
        if x < y {
            return false;
        }
        if x == y {
            i += 1;
        }
    }
    i == a.len()
}

// A run of words, each of them a record by itself.
ghost use Rattle.std.specs.Prelude.{◌≡◌, nat_lt};
ghost use Rattle.lists.specs.Lists.{chained};

use crate::fields::Fields;

// Whether they ascend strictly.
pub fn words_ascend(w: &[u64]) -> bool
    ensures { result ≡ chained nat_lt w.now }
{
    let words = Fields {
        words: w,
        size: 1,
        at: 0,
        n: w.len(),
    };
    words.ascend()
}

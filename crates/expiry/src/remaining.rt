ghost use Rattle.std.specs.Prelude.{◌≡◌, ◌≤◌, true, ltb, length, take};
ghost use Rattle.lists.specs.Lists.{chained};
ghost use Rattle.layout.specs.Words.{table_limit};
ghost use Rattle.lookup.specs.Versions.{with_life, live_among};
ghost use Rattle.expiry.specs.Remaining.{ids_left, Expirable};

use crate::list::{ID_SIZE, is_listed};
use lookup::life::Life;
use lookup::live::is_live_among;
use records::snapshot::snapshot_id;

// The ids of the snapshots that are not listed, at the front of `left`; how many they are.
pub fn remaining_ids(snapshots: &[u64], n: usize, ids: &[u64], left: &mut [u64]) -> usize
    requires { Expirable snapshots.now n ids.now × (table_limit ≤ length left.old) }
    ensures { (result ≤ length left.new) × (take result left.new ≡ ids_left snapshots.now n ids.now) }
{
    let mut k: usize = 0;
    for i in 0..n {
        let s = snapshot_id(snapshots, i);
        let listed = is_listed(ids, s);
        if !listed {
            left[k] = s.0;
            k += 1;
        }
    }
    k
}

// The ids of the snapshots that remain.
#[derive(Clone, Copy)]
pub struct Remaining<'a> {
    pub ids: &'a [u64],
    pub ghost ascending: { chained ltb ids.now ≡ true },
}

impl<'a> Remaining<'a> {
    // Those that are not listed, at the front of the lent words.
    pub fn unlisted(snapshots: &[u64], n: usize, ids: &[u64], left: &'a mut [u64]) -> Self
        requires { Expirable snapshots.now n ids.now × (table_limit ≤ length left.old) }
        ensures { result.ids.now ≡ ids_left snapshots.now n ids.now }
    {
        let k = remaining_ids(snapshots, n, ids, left);
        Remaining { ids: &left[..k] }
    }

    // Whether a record of that life is live at one of them.
    pub fn shows(self, l: Life) -> bool
        ensures { result ≡ live_among self.entry.ids.now (with_life l) }
    {
        // Where none remains, as in a list of every snapshot, no record asks for a search.
        !self.ids.is_empty() && is_live_among(self.ids, ID_SIZE, 0, self.ids.len(), l)
    }
}

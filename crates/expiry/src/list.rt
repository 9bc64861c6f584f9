ghost use Rattle.std.specs.Prelude.{◌≡◌, true, not, ltb};
ghost use Rattle.lists.specs.Lists.{all, chained, has};
ghost use Rattle.layout.specs.Words.{snapshots_in};
ghost use Rattle.ducklake.specs.Liveness.{retained};
ghost use Rattle.ducklake.specs.Arguments.{expiry_list_fits};
ghost use Rattle.lookup.specs.Order.{SnapshotsById};

use layout::number::SnapshotId;
use lookup::live::is_retained;
use runs::fields::Fields;
use runs::words::words_ascend;

// A list of ids has one word each.
pub const ID_SIZE: usize = 1;

// Whether each snapshot of a list is retained.
pub fn all_retained(snapshots: &[u64], n: usize, ids: &[u64]) -> bool
    requires { SnapshotsById snapshots.now n }
    ensures { result ≡ all (retained (snapshots_in snapshots.now n)) ids.now }
{
    for id in ids {
        if !is_retained(snapshots, n, SnapshotId(*id)) {
            return false;
        }
    }
    true
}

// Whether it is not empty and ascends strictly.
pub fn list_fits(ids: &[u64]) -> bool
    ensures { result ≡ expiry_list_fits ids.now }
{
    !ids.is_empty() && words_ascend(ids)
}

// Whether an ascending list has a snapshot.
pub fn is_listed(ids: &[u64], s: SnapshotId) -> bool
    requires { chained ltb ids.now ≡ true }
    ensures { result ≡ has s.0 ids.now }
{
    let listed = Fields {
        words: ids,
        size: ID_SIZE,
        at: 0,
        n: ids.len(),
    };
    listed.find(s.0).is_some()
}

// Whether a list, in whatever order that is, lacks a snapshot.
pub fn lacks(ids: &[u64], s: SnapshotId) -> bool
    ensures { result ≡ not (has s.0 ids.now) }
{
    !ids.contains(&s.0)
}

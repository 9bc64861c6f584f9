ghost use Rattle.std.specs.Prelude.{◌≡◌, ◌+◌, ◌*◌, ◌≤◌, ◌<◌, length};
ghost use Rattle.ducklake.specs.Liveness.{live};
ghost use Rattle.ducklake.specs.Soundness.{overlap, contains};
ghost use Rattle.lookup.specs.Versions.{life_at, with_life};

use layout::number::SnapshotId;
use runs::fields::field_at;

// From begin up to, and without, end; ABSENT is greatest.
#[derive(Clone, Copy, PartialEq, Eq)]
pub struct Life {
    pub begin: SnapshotId,
    pub end: SnapshotId,
}

// The life that a record of `size` words has in its word `at` and the next.
pub fn life_at(w: &[u64], size: usize, at: usize, i: usize) -> Life
    requires { (size * i + size ≤ length w.now) × (at + 1 < size) }
    ensures { result ≡ life_at size at w.now i }
{
    let begin = field_at(w, size, at, i);
    let end = field_at(w, size, at + 1, i);
    Life {
        begin: SnapshotId(begin),
        end: SnapshotId(end),
    }
}

// Whether a record of that life is live at s.
#[tactic(auto, unfolding(ducklake::specs::Liveness::live))]
pub fn is_live(l: Life, s: SnapshotId) -> bool
    ensures { result ≡ live s.0 (with_life l) }
{
    (l.begin <= s) & ((l.end == SnapshotId::ABSENT) | (s < l.end))
}

// Whether both are live at some number.
#[tactic(auto, unfolding(ducklake::specs::Soundness::overlap))]
pub fn lives_overlap(a: Life, b: Life) -> bool
    ensures { result ≡ overlap (with_life a) (with_life b) }
{
    (a.begin < b.end) & (b.begin < a.end)
}

// Whether the second lies within the first.
#[tactic(auto, unfolding(ducklake::specs::Soundness::contains))]
pub fn life_contains(a: Life, b: Life) -> bool
    ensures { result ≡ contains (with_life a) (with_life b) }
{
    (a.begin <= b.begin) & (b.end <= a.end)
}

ghost use Rattle.std.specs.Prelude.{◌≡◌, true, not, ltb};
ghost use Rattle.lists.specs.Lists.{all, chained, has, place};
ghost use Rattle.ducklake.specs.Arguments.{positions_fit};

use runs::words::words_ascend;

// "positions empty, not ascending strictly, or past the file": whether those of a file of so many rows are not. They ascend, so the last is the highest.
pub fn positions_fit(rows: u64, positions: &[u64]) -> bool
    ensures { result ≡ positions_fit rows positions.now }
{
    let n = positions.len();
    if n == 0 {
        return false;
    }
    let ascend = words_ascend(positions);
    let below = positions[n - 1] < rows;
    ascend & below
}

// "17 a position already deleted": the place of the first of the positions that is one of the deleted ones, where both ascend: in one pass.
pub fn first_deleted(deleted: &[u64], positions: &[u64]) -> Option<usize>
    ensures { chained ltb deleted.now ≡ true → chained ltb positions.now ≡ true
        → result ≡ place (λ p. has p deleted.now) 0 positions.now }
{
    let mut i: usize = 0;
    let mut j: usize = 0;
    // Stays: each turn moves one of two cursors.
    while i < positions.len() {
        if deleted.len() <= j {
            return None;
        }
        let p = positions[i];
        let d = deleted[j];
        if p == d {
            return Some(i);
        }
        if p < d {
            i += 1;
        } else {
            j += 1;
        }
    }
    None
}

// Whether none of them is.
pub fn none_deleted(deleted: &[u64], positions: &[u64]) -> bool
    ensures { chained ltb deleted.now ≡ true → chained ltb positions.now ≡ true
        → result ≡ all (λ p. not (has p deleted.now)) positions.now }
{
    first_deleted(deleted, positions).is_none()
}

ghost use Rattle.std.specs.Prelude.{◌≡◌, ℕ, ◌+◌, ◌*◌, ◌%◌, ◌^◌, ◌<◌, ◌≤◌, true, [], map, length, take, nat_lt};
ghost use Rattle.lists.specs.Lists.{range, all, filter};
ghost use Rattle.lists.specs.Runs.{overwrite};
ghost use Rattle.sorting.specs.Ordered.{HasKey, Sortable};
ghost use Rattle.sorting.specs.Colliding.{mixed, hash_limit, some_hashes, hashed, hash_at, field_hash, pair_hash, Counted, colliding, Hashes, Kept, Thinned};

use crate::keys::Keys;
use runs::fields::field_at;
use std::num::wrapping_add_u64;

// Two equal keys have one hash: places whose hash no other place has are left out, and on ordinary content few remain.

// A word has two halves, one of which is multiplied. No remainder is taken but by a power of two.
const HALF: u64 = 4294967296;

const FIRST_FACTOR: u64 = 2654435769;

const SECOND_FACTOR: u64 = 3266489917;

// Hashes are below this.
const HASH_LIMIT: usize = 65536;

// For so few places fewer digits of a hash do, and less scratch.
const SOME_PLACES: usize = 1024;

const SOME_HASHES: usize = 4096;

// So few places are sorted as quickly as hashed.
const FEW_PLACES: usize = 64;

// Which of the two hashes: places that share the first one may be told apart by the second.
#[derive(Clone, Copy)]
pub enum Round {
    First,
    Second,
}

fn mix(h: u64, round: Round) -> u64
    ensures { result ≡ mixed round h }
{
    let factor = match round {
        Round::First => FIRST_FACTOR,
        Round::Second => SECOND_FACTOR,
    };
    h % HALF * factor + h / HALF
}

// The digest of words that end with x, from the digest of those before it.
pub fn absorb(h: u64, x: u64, round: Round) -> u64
    ensures { result ≡ (mixed round h + x) % 2 ^ 64 }
{
    let m = mix(h, round);
    wrapping_add_u64(m, x)
}

// The hash of words, from their digest.
pub fn hash(h: u64, round: Round) -> usize
    ensures { (result ≡ hashed round h) × (result < hash_limit) }
{
    let m = mix(h, round);
    (m / (HASH_LIMIT as u64) % (HASH_LIMIT as u64)) as usize
}

// The hash of the first `used` words of the key at place i.
fn hash_at(keys: Keys, used: usize, i: usize, round: Round) -> usize
    requires { HasKey keys i × (used ≤ keys.size) }
    ensures { result ≡ hash_at round used keys.entry.size keys.entry.words.now i }
{
    let mut h: u64 = 0;
    for k in 0..used {
        let x = field_at(keys.words, keys.size, k, i);
        h = absorb(h, x, round);
    }
    hash(h, round)
}

fn hash_places(keys: Keys, used: usize, round: Round, w: &[usize], hashes: &mut [usize])
    requires { Sortable keys w.now hashes.old × (used ≤ keys.size) }
    ensures { hashes.new ≡ map (hash_at round used keys.entry.size keys.entry.words.now) w.now }
{
    for i in 0..w.len() {
        hashes[i] = hash_at(keys, used, w[i], round);
    }
}

// The hashes of records where they stand, from the place `from` on. Of the word `at` of n records: its last digits, which tell ids apart that count up.
pub fn hash_fields(w: &[u64], size: usize, at: usize, n: usize, hashes: &mut [usize], from: usize)
    requires { (size * n ≤ length w.now) × (at < size) × (from + n ≤ length hashes.old) }
    ensures { hashes.new ≡ overwrite hashes.old from (map (field_hash size at w.now) (range 0 n)) }
{
    for i in 0..n {
        let x = field_at(w, size, at, i);
        hashes[from + i] = (x % (HASH_LIMIT as u64)) as usize;
    }
}

// Of two words of n records. Stays: one loop for both hashes would take a closure with clauses of its own, which is no plainer.
pub fn hash_pairs(
    w: &[u64],
    size: usize,
    a: usize,
    b: usize,
    n: usize,
    hashes: &mut [usize],
    from: usize,
)
    requires { (size * n ≤ length w.now) × (a < size) × (b < size) × (from + n ≤ length hashes.old) }
    ensures { hashes.new ≡ overwrite hashes.old from (map (pair_hash size a b w.now) (range 0 n)) }
{
    for i in 0..n {
        let x = field_at(w, size, a, i);
        let y = field_at(w, size, b, i);
        let h = absorb(absorb(0, x, Round::First), y, Round::First);
        hashes[from + i] = hash(h, Round::First);
    }
}

// How often each hash occurs, up to twice.
fn count_hashes(hashes: &[usize], counts: &mut [u8])
    requires { Counted [] counts.old × Hashes hashes.now counts.old }
    ensures { (length counts.new ≡ length counts.old) × Counted hashes.now counts.new }
{
    for &h in hashes {
        let c = counts[h];
        if c < 2 {
            counts[h] = c + 1;
        }
    }
}

// The places whose hash occurs twice or more, moved to the front; returns how many they are.
fn keep(hashes: &[usize], counts: &[u8], w: &mut [usize]) -> usize
    requires { (length hashes.now ≡ length w.old) × Hashes hashes.now counts.now }
    ensures { (length w.new ≡ length w.old) × (result ≤ length w.old)
        × ((hash : ℕ → ℕ) → hashes.now ≡ map hash w.old
        → take result w.new ≡ filter (λ p. colliding counts.now (hash p)) w.old) }
{
    let mut k: usize = 0;
    for i in 0..w.len() {
        let c = counts[hashes[i]];
        w[k] = w[i];
        if 1 < c {
            k += 1;
        }
    }
    k
}

// Hashes with fewer digits.
fn shorten(hashes: &mut [usize])
    ensures { hashes.new ≡ map (λ h. h % some_hashes) hashes.old }
{
    for i in 0..hashes.len() {
        hashes[i] %= SOME_HASHES;
    }
}

// The same as `keep_colliding`, for hashes below N.
fn keep_counted<const N: usize>(hashes: &[usize], w: &mut [usize]) -> usize
    requires { (length hashes.now ≡ length w.old) × (all (λ h. nat_lt h N) hashes.now ≡ true) × (N < 2 ^ 63) }
    ensures { (length w.new ≡ length w.old) × (result ≤ length w.old)
        × ((hash : ℕ → ℕ) → hashes.now ≡ map hash w.old → Kept hash w.old (take result w.new)) }
{
    let mut counts = [0u8; N];
    count_hashes(hashes, &mut counts);
    keep(hashes, &counts, w)
}

// Of the places in w those whose hash another place has, moved to the front; returns how many they are. Few places all stay. The hashes are scratch afterwards.
pub fn keep_colliding(hashes: &mut [usize], w: &mut [usize]) -> usize
    requires { (length hashes.old ≡ length w.old) × (all (λ h. nat_lt h hash_limit) hashes.old ≡ true) }
    ensures { (length w.new ≡ length w.old) × (result ≤ length w.old)
        × ((hash : ℕ → ℕ) → hashes.old ≡ map hash w.old → Kept hash w.old (take result w.new)) }
{
    let n = w.len();
    if n <= FEW_PLACES {
        return n;
    }
    if n <= SOME_PLACES {
        shorten(hashes);
        return keep_counted::<SOME_HASHES>(hashes, w);
    }
    keep_counted::<HASH_LIMIT>(hashes, w)
}

// Leaves out places whose first `used` words no other place has: those left are moved to the front, and it returns how many they are. v is scratch.
pub fn thin(keys: Keys, used: usize, round: Round, w: &mut [usize], v: &mut [usize]) -> usize
    requires { Sortable keys w.old v.old × (used ≤ keys.size) }
    ensures { (length w.new ≡ length w.old) × (result ≤ length w.old)
        × Thinned keys.entry.size used keys.entry.words.now w.old (take result w.new) }
{
    hash_places(keys, used, round, w, v);
    keep_colliding(v, w)
}

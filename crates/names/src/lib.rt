// Names in their places, and as arguments.
#![tactic(auto)]

ghost use Rattle.std.specs.Prelude.{◌≡◌, ◌+◌, ◌*◌, ◌≤◌, ◌<◌, length, get_or};
ghost use Rattle.lists.specs.Runs.{overwrite};
ghost use Rattle.layout.specs.Names.{name_size, name_at, is_name_byte, is_name, is_name_argument, padded, same_name};
ghost use Rattle.names.specs.NameWords.{byte_count, half_bytes, half_count, half_at, digits, name_word_count, name_word};

use layout::number::NAME_SIZE;

// A word holds so many bytes, and a byte one of so many numbers.
const WORD_BYTES: usize = 8;

const BYTE_COUNT: u64 = 256;

// Two bytes are one of so many numbers, three, and the four of half a word.
const PAIR_COUNT: u64 = BYTE_COUNT * BYTE_COUNT;

const TRIPLE_COUNT: u64 = BYTE_COUNT * PAIR_COUNT;

const HALF_COUNT: u64 = BYTE_COUNT * TRIPLE_COUNT;

// An ASCII letter, digit or underscore.
pub fn is_name_byte(b: u8) -> bool
    ensures { result ≡ is_name_byte b }
{
    ((b'0' <= b) & (b <= b'9'))
        | ((b'A' <= b) & (b <= b'Z'))
        | (b == b'_')
        | ((b'a' <= b) & (b <= b'z'))
}

// Whether the place i holds a name: 1 to 32 name bytes, then zero bytes. Each byte is zero, or a name byte behind one that is not zero; no byte ends
// the loop, so that many are judged at a time.
pub fn is_name(names: &[u8], i: usize) -> bool
    requires { name_size * i + name_size ≤ length names.now }
    ensures { result ≡ is_name (name_at names.now i) }
{
    let a = NAME_SIZE * i;
    let mut before = names[a];
    let mut ok = before != 0;
    for k in 0..NAME_SIZE {
        let b = names[a + k];
        let named = is_name_byte(b);
        ok = ok & ((named & (before != 0)) | (b == 0));
        before = b;
    }
    ok
}

fn wide(b: u8) -> u64
    ensures { (result ≡ b) × (result < byte_count) }
{
    b as u64
}

// Four bytes from a on as a number, the highest first, in a sum that compiles to one load.
fn four_bytes(names: &[u8], a: usize) -> u64
    requires { a + half_bytes ≤ length names.now }
    ensures { (result ≡ digits 0 (half_at names.now a)) × (result < half_count) }
{
    TRIPLE_COUNT * wide(names[a])
        + PAIR_COUNT * wide(names[a + 1])
        + BYTE_COUNT * wide(names[a + 2])
        + wide(names[a + 3])
}

// Eight bytes of the place i, from its byte 8k on, as one word: the words of two names compare as their bytes do.
pub fn name_word(names: &[u8], i: usize, k: usize) -> u64
    requires { (name_size * i + name_size ≤ length names.now) × (k < name_word_count) }
    ensures { result ≡ name_word (name_at names.now i) k }
{
    let a = NAME_SIZE * i + WORD_BYTES * k;
    let high = four_bytes(names, a);
    let low = four_bytes(names, a + WORD_BYTES / 2);
    HALF_COUNT * high + low
}

// Whether a name is well formed as an argument: 1 to 32 name bytes.
pub fn is_name_argument(name: &[u8]) -> bool
    ensures { result ≡ is_name_argument name.now }
{
    let n = name.len();
    if n < 1 {
        return false;
    }
    if NAME_SIZE < n {
        return false;
    }
    name.iter().all(|b| is_name_byte(*b))
}

// Whether two places hold the same bytes.
// Stays: this is `==` of the two names' slices.
pub fn same_name(a: &[u8], i: usize, b: &[u8], j: usize) -> bool
    requires { (name_size * i + name_size ≤ length a.now) × (name_size * j + name_size ≤ length b.now) }
    ensures { result ≡ same_name (name_at a.now i) (name_at b.now j) }
{
    let x = NAME_SIZE * i;
    let y = NAME_SIZE * j;
    a[x..x + NAME_SIZE] == b[y..y + NAME_SIZE]
}

// The byte k of a name that zero bytes follow.
fn padded_byte(name: &[u8], k: usize) -> u8
    ensures { result ≡ get_or name.now k 0 }
{
    if k < name.len() {
        return name[k];
    }
    0
}

// Whether the place i holds a name that is no longer than a place, padded.
fn holds_name(names: &[u8], i: usize, name: &[u8]) -> bool
    requires { (name_size * i + name_size ≤ length names.now) × (length name.now ≤ name_size) }
    ensures { result ≡ same_name (name_at names.now i) (padded name.now) }
{
    let a = NAME_SIZE * i;
    for k in 0..NAME_SIZE {
        let b = padded_byte(name, k);
        if names[a + k] != b {
            return false;
        }
    }
    true
}

// Whether the place i holds the name, padded.
pub fn is_named(names: &[u8], i: usize, name: &[u8]) -> bool
    requires { name_size * i + name_size ≤ length names.now }
    ensures { result ≡ same_name (name_at names.now i) (padded name.now) }
{
    if NAME_SIZE < name.len() {
        return false;
    }
    holds_name(names, i, name)
}

// The name, padded with zero bytes, in the place i.
pub fn write_name(names: &mut [u8], i: usize, name: &[u8])
    requires { (name_size * i + name_size ≤ length names.old) × (length name.now ≤ name_size) }
    ensures { names.new ≡ overwrite names.old (name_size * i) (padded name.now) }
{
    let a = NAME_SIZE * i;
    for k in 0..NAME_SIZE {
        names[a + k] = padded_byte(name, k);
    }
}

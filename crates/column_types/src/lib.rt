// Column types, and words as signed values.
#![tactic(auto)]

ghost use Rattle.std.specs.Prelude.{◌≡◌, MatchOption};
ghost use Rattle.layout.specs.Types.{signed, is_type, in_type, bound_at_most};
ghost use Rattle.column_types.specs.Ranges.{HasType, HasNoType};

use layout::value::TypeRange;

// How many types there are.
const TYPE_COUNT: usize = 8;

// int8, int16, int32, int64, uint8, uint16, uint32, boolean.
const TYPES: [TypeRange; TYPE_COUNT] = [
    TypeRange {
        code: 1,
        low: -128,
        high: 127,
    },
    TypeRange {
        code: 2,
        low: -32768,
        high: 32767,
    },
    TypeRange {
        code: 3,
        low: -2147483648,
        high: 2147483647,
    },
    TypeRange {
        code: 4,
        low: -9223372036854775808,
        high: 9223372036854775807,
    },
    TypeRange {
        code: 5,
        low: 0,
        high: 255,
    },
    TypeRange {
        code: 6,
        low: 0,
        high: 65535,
    },
    TypeRange {
        code: 7,
        low: 0,
        high: 4294967295,
    },
    TypeRange {
        code: 8,
        low: 0,
        high: 1,
    },
];

// The type of that code, if there is one, its place in the table told by an arm for each: a place that is known when this is compiled costs no copy of
// the table.
fn type_of(code: u64) -> Option<TypeRange>
    ensures { MatchOption result (HasNoType code) (HasType code) }
{
    match code {
        1 => Some(TYPES[0]),
        2 => Some(TYPES[1]),
        3 => Some(TYPES[2]),
        4 => Some(TYPES[3]),
        5 => Some(TYPES[4]),
        6 => Some(TYPES[5]),
        7 => Some(TYPES[6]),
        8 => Some(TYPES[7]),
        _ => None,
    }
}

// Whether there is a type of that code.
pub fn is_type(code: u64) -> bool
    ensures { result ≡ is_type code }
{
    type_of(code).is_some()
}

// Whether the value is in the range of the type of that code.
pub fn in_type(code: u64, v: i64) -> bool
    ensures { result ≡ in_type code v }
{
    match type_of(code) {
        Some(t) => (t.low <= v) & (v <= t.high),
        None => false,
    }
}

// The word, read in two's complement.
// Stays: this is the library's cast, under the definition that callers cite (`signed`).
pub fn to_signed(w: u64) -> i64
    ensures { result ≡ signed w }
{
    w.cast_signed()
}

// Whether one bound of a column of that type is at most another: bounds of every type are signed numbers.
pub fn bound_at_most(type_code: u64, a: u64, b: u64) -> bool
    ensures { result ≡ bound_at_most type_code a b }
{
    to_signed(a) <= to_signed(b)
}

ghost use Rattle.std.specs.Prelude.{◌≡◌, ◌++◌, ◌+◌, ◌≤◌, ◌<◌, length};
ghost use Rattle.ducklake.specs.Paths.{hex_digit, hex, dash, uuid_text, path};
ghost use Rattle.paths.specs.Text.{Written};
ghost use Rattle.paths.specs.Lengths.{uuid_length, path_length};

use crate::text::write_bytes;
use layout::record::Uuid;

// So many bytes has a UUID, five groups with a dash between two, and so many a path.
const UUID_LENGTH: usize = 8 + 1 + 4 + 1 + 4 + 1 + 4 + 1 + 12;

pub const PATH_LENGTH: usize = 9 + UUID_LENGTH + 8;

// A number divided by one of these loses its last four, eight or twelve hexadecimal digits.
const FOUR_DIGITS: u64 = 0x1_0000;

const EIGHT_DIGITS: u64 = 0x1_0000_0000;

const TWELVE_DIGITS: u64 = 0x1_0000_0000_0000;

// A hexadecimal digit in lower case.
fn hex_digit(d: u8) -> u8
    requires { d < 16 }
    ensures { result ≡ hex_digit d }
{
    if d < 10 {
        return b'0' + d;
    }
    b'a' - 10 + d
}

// The last n hexadecimal digits of a number, from the last to the first.
fn write_hex(text: &mut [u8], at: usize, n: usize, number: u64) -> usize
    requires { at + n ≤ length text.old }
    ensures { Written text.old at (hex n number) text.new result }
{
    let mut rest = number;
    for i in (0..n).rev() {
        text[at + i] = hex_digit((rest % 16) as u8);
        rest /= 16;
    }
    at + n
}

// The same, and the dash that goes before the next group.
fn write_group(text: &mut [u8], at: usize, n: usize, number: u64) -> usize
    requires { at + n < length text.old }
    ensures { Written text.old at (hex n number ++ dash) text.new result }
{
    let e = write_hex(text, at, n, number);
    write_bytes(text, e, b"-")
}

// "UUID in lower-case hexadecimal (8-4-4-4-12)"
fn write_uuid(text: &mut [u8], at: usize, uuid: Uuid) -> usize
    requires { at + uuid_length ≤ length text.old }
    ensures { Written text.old at (uuid_text uuid) text.new result }
{
    let second = write_group(text, at, 8, uuid.high / EIGHT_DIGITS);
    let third = write_group(text, second, 4, uuid.high / FOUR_DIGITS);
    let fourth = write_group(text, third, 4, uuid.high);
    let fifth = write_group(text, fourth, 4, uuid.low / TWELVE_DIGITS);
    write_hex(text, fifth, 12, uuid.low)
}

// "A path is `ducklake-{uuid}.parquet`"
pub fn write_path(text: &mut [u8], at: usize, uuid: Uuid) -> usize
    requires { at + path_length ≤ length text.old }
    ensures { Written text.old at (path uuid) text.new result }
{
    let start = write_bytes(text, at, b"ducklake-");
    let end = write_uuid(text, start, uuid);
    write_bytes(text, end, b".parquet")
}

ghost use Rattle.std.specs.Prelude.{◌+◌, ◌≤◌, length};
ghost use Rattle.paths.specs.Text.{Written};

// These bytes, from a place of the text on; the place behind them. The text and the place stay two parameters: the clause `Written`, by which the listing is
// proved, speaks of both.
pub fn write_bytes(text: &mut [u8], at: usize, bytes: &[u8]) -> usize
    requires { at + length bytes.now ≤ length text.old }
    ensures { Written text.old at bytes.now text.new result }
{
    let end = at + bytes.len();
    text[at..end].copy_from_slice(bytes);
    end
}

// Flags, a byte for each place: 1 stays, 0 goes.
ghost use Rattle.std.specs.Prelude.{◌≡◌, ◌<◌, length, slice_set};
ghost use Rattle.lists.specs.Lists.{bit};
ghost use Rattle.lists.specs.Pieces.{flagged};

pub fn is_flagged(flags: &[u8], i: usize) -> bool
    requires { i < length flags.now }
    ensures { result ≡ flagged flags.now i }
{
    flags[i] == 1
}

// Stays: the truth value is what is written; it chooses no step.
pub fn set_flag(flags: &mut [u8], i: usize, stays: bool)
    requires { i < length flags.old }
    ensures { flags.new ≡ slice_set flags.old i (bit stays) }
{
    flags[i] = u8::from(stays);
}

ghost use Rattle.std.specs.Prelude.{◌≡◌, ◌+◌, ◌≤◌, length};
ghost use Rattle.call_lists.specs.Calls.{part};

use crate::record::Span;

// The words or bytes of a span that lies within the run.
pub fn part_of<T>(run: &[T], span: Span) -> &[T]
    requires { span.start + span.length ≤ length run.now }
    ensures { result.now ≡ part run.now span }
{
    let start = span.start;
    let end = start + span.length;
    &run[start..end]
}

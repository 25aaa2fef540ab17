// The ranges of leaves beside a way, kept on a stack.
ghost use Rattle.std.specs.Prelude.{◌≡◌, length};
ghost use Rattle.std.specs.Option.{option_map};
ghost use Rattle.stack.specs.Held.{popped};
ghost use Rattle.paths.specs.Ranges.{beside};

use roots::range::CELLS;
use stack::Stack;
use tree::spans::Span;
use tree::ways::Way;

// The ranges beside a way, the lowest on top, if there is such a way, and cells enough.
pub(crate) fn beside(way: Way, cells: &mut [Span]) -> Option<Stack<'_, Span>>
    ensures { option_map popped result ≡ beside way (length cells.old) }
{
    if cells.len() < CELLS {
        return None;
    }
    let mut spans = Stack::new(cells);
    for span in way.descent()? {
        spans.push(span).ok()?;
    }
    Some(spans)
}

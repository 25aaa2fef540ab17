// The ranges of leaves beside a way, from the root down.
ghost use Rattle.tree.specs.Ways.{Inside};

use crate::spans::Span;
use crate::ways::Way;

// What is left of a way: the part of the tree through which it goes on.
#[derive(Drop)]
pub struct Descent {
    way: Way,
    part: Span,
    ghost inside: { Inside way part },
}

impl Way {
    ghost use Rattle.std.specs.Prelude.{◌≡◌, ◌≤◌, cond, reverse, length, Some, None, IfSome};
    ghost use Rattle.std.specs.Option.{option_map};
    ghost use Rattle.tree.specs.Ways.{in_way, way_spans, way_count, most_spans};
    ghost use Rattle.tree.specs.Descents.{spans_left};

    // The ranges beside the way, the topmost first; last the part with which a way to an end ends, unless that part begins the tree.
    #[tactic(auto, using(crate::proofs::Onward::few))]
    pub fn descent(self) -> Option<Descent>
        ensures few { IfSome result (λ d. length (spans_left d) ≤ most_spans self) }
        ensures spans { option_map spans_left result ≡ cond (in_way self) (Some (reverse (way_spans self))) None }
    {
        if !self.exists() {
            return None;
        }
        let part = Span {
            from: 0,
            to: self.leaves(),
        };
        Some(Descent { way: self, part })
    }

    // How many of them there are.
    pub fn len(self) -> Option<usize>
        ensures count { result ≡ way_count self }
        ensures most { IfSome result (λ k. k ≤ most_spans self) }
    {
        Some(self.descent()?.count())
    }
}

impl Iterator for Descent {
    ghost use Rattle.std.specs.Iterator.{YieldsFirst, item_count};
    ghost use Rattle.tree.specs.Descents.{spans_left};

    type Item = Span;

    ghost next_gives = { YieldsFirst spans_left };

    ghost remaining = { item_count spans_left };

    #[tactic(auto, using(crate::proofs::Onward::on_first, crate::proofs::Onward::at_start, crate::proofs::Onward::at_end))]
    fn next(&mut self) -> Option<Span> {
        let part = self.part;
        if self.way.ends_with(part) {
            return match self.way {
                Way::ToEnd { .. } if part.from > 0 => {
                    self.part.from = 0;
                    Some(part)
                }
                _ => None,
            };
        }
        let (low, high) = part.halves();
        if self.way.passes_low(high.from) {
            self.part = low;
            return Some(high);
        }
        self.part = high;
        Some(low)
    }
}

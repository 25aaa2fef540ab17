// The worked examples, as one statement of the definitions that the contracts cite.
#![tactic(auto)]

ghost use Rattle.specimens.specs.Specimens.{Specimens};

// Each of them holds, by computation.
pub fn specimens_hold()
    ensures { Specimens }
{}

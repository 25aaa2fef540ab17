// What happens at the top of a stack.
ghost use Rattle.std.specs.Prelude.{◌≡◌, ℕ, ◌+◌, ◌-◌, ◌<◌, List, [], ◌∷◌, ◌++◌, is_some, MatchResult, nat_lt, slice_set};
ghost use Rattle.std.specs.Option.{option_to_list};
ghost use Rattle.refusal.specs.declared.Refusal.TheVariants.{StackFull};
ghost use Rattle.stack.specs.Held.{held, room};

use crate::Stack;
use refusal::Refusal;

impl<'a, T: Copy> Stack<'a, T> {
    // Puts a value on top; a full stack refuses it and stays as it is.
    pub fn push(&mut self, cell: T) -> Result<(), Refusal>
        ensures used { MatchResult result (λ _. held self.new ≡ held self.old ++ cell ∷ []) (λ e. e ≡ StackFull) }
        ensures left { MatchResult result (λ _. self.old.len < room self.old) (λ _. self.old.len ≡ room self.old) }
        ensures places { MatchResult result (λ _. (self.new.len ≡ self.old.len + 1) × (self.new.cells.now ≡ slice_set self.old.cells.now self.old.len cell)) (λ _. (self.new.len ≡ self.old.len) × (self.new.cells.now ≡ self.old.cells.now)) }
        ensures size { room self.new ≡ room self.old }
    {
        if self.len == self.cells.len() {
            return Err(Refusal::StackFull);
        }
        self.cells[self.len] = cell;
        self.len += 1;
        Ok(())
    }

    // Takes the value on top off, if there is one.
    pub fn pop(&mut self) -> Option<T>
        ensures used { held self.old ≡ held self.new ++ option_to_list result }
        ensures some { is_some result ≡ nat_lt 0 self.old.len }
        ensures places { (self.new.len ≡ self.old.len - 1) × (self.new.cells.now ≡ self.old.cells.now) }
        ensures size { room self.new ≡ room self.old }
    {
        if self.len == 0 {
            return None;
        }
        self.len -= 1;
        Some(self.cells[self.len])
    }
}

// The values from the top down, each taken off.
impl<T: Copy> Iterator for Stack<'_, T> {
    ghost use Rattle.std.specs.Prelude.{⊤};
    ghost use Rattle.std.specs.Iterator.{MakesProgress, YieldsFirst, item_count};
    ghost use Rattle.stack.specs.Held.{popped};

    type Item = T;

    ghost next_gives = { YieldsFirst popped };

    ghost remaining = { item_count popped };

    // It also promises of the cells what `pop` does.
    fn next(&mut self) -> Option<T>
        ensures steps { YieldsFirst popped self.old result self.new }
        ensures goes { MakesProgress (λ _. ⊤) (item_count popped) self.old result self.new }
        ensures places { (self.new.len ≡ self.old.len - 1) × (self.new.cells.now ≡ self.old.cells.now) }
        ensures size { room self.new ≡ room self.old }
    {
        self.pop()
    }
}

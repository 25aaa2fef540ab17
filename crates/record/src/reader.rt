// A reader of the records of an input, one after the other.
ghost use Rattle.std.specs.Prelude.{◌≡◌, ◌<◌, ◌≤◌, length, IfOk, if◌then◌else◌, MatchResult, ◌==◌};
ghost use Rattle.record.specs.Records.{read_at};
ghost use Rattle.record.specs.Views.{answer_of, place_after, Whole};

use crate::frame::{HEADER_LEN, bytes_at, header_at};
use crate::kinds::known;
use crate::payload::parse;
use crate::records::Record;
use cipher::words::Words;
use refusal::{Refusal, Site};

// Input `number` of a call, with the place of the next record.
#[derive(Drop)]
pub struct Reader<'a> {
    input: &'a [u8],
    number: u8,
    place: usize,
    ghost within: { place ≤ length input.now },
}

// Stands over a reader's place while a record is read, and puts it back unless the record was committed. That is a flag, since it
// comes true after the guard was made, and every way out has to see it.
struct Guard<'p> {
    place: &'p mut usize,
    first: usize,
    committed: bool,
}

impl Drop for Guard<'_> {
    fn drop(self)
        ensures { self.exit.0.now ≡ (if self.entry.committed then self.entry.place.now else self.entry.first) }
    {
        if !self.committed {
            *self.place = self.first;
        }
        let Guard {
            place: _,
            first: _,
            committed: _,
        } = self;
    }
}

impl<'a> Reader<'a> {
    pub fn new(number: u8, input: &'a [u8]) -> Reader<'a>
        ensures { (result.input.now ≡ input.now) × ((result.number ≡ number) × (result.place ≡ 0)) }
    {
        Reader {
            input,
            number,
            place: 0,
        }
    }

    pub fn place(&self) -> usize
        ensures { (result ≡ self.now.place) × (result ≤ length self.now.input.now) }
    {
        self.place
    }

    pub fn is_at_end(&self) -> bool
        ensures { result ≡ (self.now.place == length self.now.input.now) }
    {
        self.input.len() == self.place
    }

    // The record at the reader's place, which moves past it, or stays where it is if there is none.
    #[tactic(auto, using(crate::proofs::Steps::no_header, crate::proofs::Steps::no_payload, crate::proofs::Steps::no_kind, crate::proofs::Steps::no_record, crate::proofs::Steps::long))]
    pub fn next<D: Words>(&mut self) -> Result<Record<'a>, Refusal>
        ensures answer { answer_of D.Words.width result self.new.place ≡ read_at D.Words.width self.old.number self.old.input.now self.old.place }
        ensures place { self.new.place ≡ place_after self.old.place (read_at D.Words.width self.old.number self.old.input.now self.old.place) }
        ensures onward { MatchResult result (λ _. self.old.place < self.new.place) (λ _. self.new.place ≡ self.old.place) }
        ensures whole { IfOk result (Whole D.Words.width) }
        ensures input { self.new.input.now ≡ self.old.input.now }
        ensures number { self.new.number ≡ self.old.number }
    {
        let input = self.input;
        let site = Site {
            input: self.number,
            place: self.place,
        };
        let mut guard = Guard {
            place: &mut self.place,
            first: site.place,
            committed: false,
        };
        let header = header_at(input, *guard.place, site)?;
        *guard.place += HEADER_LEN;
        let payload = bytes_at(input, *guard.place, header.len as usize, site)?;
        *guard.place += payload.len();
        let kind = known(header.kind, site)?;
        let read = parse::<D>(kind, payload, site)?;
        guard.committed = true;
        Ok(read)
    }
}

// Why a call is refused, and what it then returns. Inputs are counted from 1, in the order in which a call takes them, and a
// place is the first byte of a record in its input.
#![tactic(auto)]

ghost use Rattle.std.specs.Prelude.{◌≡◌, Some};
ghost use Rattle.refusal.specs.Refusals.{site, about, returned_of, returned_text, must};

use std::fmt;

// A place in an input of a call.
#[derive(Clone, Copy, PartialEq, Eq, Debug)]
pub struct Site {
    pub input: u8,
    pub place: usize,
}

#[derive(Clone, Copy, PartialEq, Eq, Debug)]
pub enum Refusal {
    // The log was made over a store that had leaves.
    MadeOverLeaves,
    // The bytes end before the record does.
    CutShort(Site),
    UnknownKind(Site),
    // No record of this kind has a payload of this length.
    ImpossibleLength(Site),
    // A size that no tree has, numbers out of order, or another number of digests than the numbers fix.
    ImpossibleNumbers(Site),
    // The same of plain numbers, or a size above the log's count.
    ImpossibleRequest,
    // A record of another kind is wanted.
    UnwantedKind(Site),
    // Bytes follow where a single record is wanted.
    BytesAfter(Site),
    // A proof or a link has other sizes, or another index, than the heads or the other proof or link.
    OtherNumbers(Site),
    // A proof or a link rebuilds another root than its head has.
    WrongRoot(Site),
    // Two inputs of the compression that are equal or have different outputs.
    NoCollision { input: u8 },
    // This input is longer than its kind may be.
    TooLong { input: u8 },
    StoreFull,
    FileFull,
    OutputShort,
    // Fewer stack cells were lent than the call wants.
    TooFewCells,
    StackFull,
    EqualMessages,
    UnequalDigests,
    // Two proofs with their entries, or two links with their old heads, are equal.
    EqualPapers,
}

// What a refused call returns: the refusal's number, the input that it is about (0 for none), and the place of a
// record's first byte in that input (0 for none).
#[derive(Clone, Copy, PartialEq, Eq, Debug)]
pub struct Returned {
    pub number: u8,
    pub input: u8,
    pub place: usize,
}

// What a refusal that is about no input is about.
const NOWHERE: Site = Site { input: 0, place: 0 };

impl Site {
    // The first byte of an input.
    pub fn start_of(input: u8) -> Site
        ensures { result ≡ site input 0 }
    {
        Site { input, place: 0 }
    }
}

impl Refusal {
    pub fn returned(self) -> Returned
        ensures { result ≡ returned_of self }
    {
        match self {
            Refusal::MadeOverLeaves => about(1, NOWHERE),
            Refusal::CutShort(site) => about(2, site),
            Refusal::UnknownKind(site) => about(3, site),
            Refusal::ImpossibleLength(site) => about(4, site),
            Refusal::ImpossibleNumbers(site) => about(5, site),
            Refusal::ImpossibleRequest => about(5, NOWHERE),
            Refusal::UnwantedKind(site) | Refusal::BytesAfter(site) => about(6, site),
            Refusal::OtherNumbers(site) => about(7, site),
            Refusal::WrongRoot(site) => about(8, site),
            Refusal::NoCollision { input } => about(8, Site::start_of(input)),
            Refusal::TooLong { input } => about(9, Site::start_of(input)),
            Refusal::StoreFull
            | Refusal::FileFull
            | Refusal::OutputShort
            | Refusal::TooFewCells
            | Refusal::StackFull => about(10, NOWHERE),
            Refusal::EqualMessages | Refusal::UnequalDigests | Refusal::EqualPapers => {
                about(11, NOWHERE)
            }
        }
    }
}

fn about(number: u8, site: Site) -> Returned
    ensures { result ≡ about number site }
{
    Returned {
        number,
        input: site.input,
        place: site.place,
    }
}

impl fmt::Display for Returned {
    ghost output = { λ r. Some (returned_text r) };

    fn fmt<W: fmt::Write>(&self, f: &mut fmt::Formatter<W>) -> fmt::Result {
        let (number, input, place) = (self.number, self.input, self.place);
        write!(f, "refused {number} input {input} place {place}")
    }
}

// What has to hold, or the call is refused.
pub fn must(ok: bool, refusal: Refusal) -> Result<(), Refusal>
    ensures { result ≡ must ok refusal }
{
    if ok { Ok(()) } else { Err(refusal) }
}

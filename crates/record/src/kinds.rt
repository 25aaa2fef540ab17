// The six kinds of records: their numbers, and how long a payload may be.
ghost use Rattle.std.specs.Prelude.{◌≡◌, ℕ};
ghost use Rattle.std.specs.Result.{result_map_both};
ghost use Rattle.refusal.specs.Refusals.{given};
ghost use Rattle.refusal.specs.declared.Refusal.{Refusal as TheRefusal};
ghost use Rattle.refusal.specs.declared.Refusal.TheVariants.{UnknownKind};
ghost use Rattle.record.specs.Records.{kinds, rows};
ghost use Rattle.record.specs.Kinds.{number_of, row_of, ReadAs};

use crate::collisions::BLOCK_LEN;
use cipher::words::Words;
use refusal::{Refusal, Site};
use tree::digests::LONGEST_ENTRY;

// A path has at most so many digests.
const LONGEST_PATH: usize = 20;

// A link has at most so many digests.
const LONGEST_LINK: usize = 21;

#[derive(Clone, Copy, PartialEq, Eq, Debug)]
pub enum Kind {
    Leaf = 1,
    Head = 2,
    Proof = 3,
    Link = 4,
    Entry = 5,
    Collision = 6,
}

// A number that no kind of record has.
#[derive(Clone, Copy, PartialEq, Eq, Debug)]
pub struct NoSuchKind(pub u16);

impl From<Kind> for u16 {
    ghost from_gives = { λ kind number. number ≡ number_of kind };

    fn from(kind: Kind) -> u16 {
        kind as u16
    }
}

impl TryFrom<u16> for Kind {
    type Error = NoSuchKind;

    ghost try_from_gives = { ReadAs };

    fn try_from(number: u16) -> Result<Kind, NoSuchKind> {
        match number {
            1 => Ok(Kind::Leaf),
            2 => Ok(Kind::Head),
            3 => Ok(Kind::Proof),
            4 => Ok(Kind::Link),
            5 => Ok(Kind::Entry),
            6 => Ok(Kind::Collision),
            _ => Err(NoSuchKind(number)),
        }
    }
}

impl Kind {
    // Whether a payload of this kind can have so many bytes.
    pub(crate) fn takes<D: Words>(self, len: usize) -> bool
        ensures { result ≡ (row_of D.Words.width self).0 len }
    {
        match self {
            Kind::Leaf => len == D::size(),
            Kind::Head => len == 4 + D::size(),
            Kind::Proof => has_digests::<D>(len, LONGEST_PATH),
            Kind::Link => has_digests::<D>(len, LONGEST_LINK),
            Kind::Entry => len <= LONGEST_ENTRY,
            Kind::Collision => len == 2 * (D::size() + BLOCK_LEN),
        }
    }
}

// Whether so many bytes are two numbers and whole digests, at most so many.
fn has_digests<D: Words>(len: usize, most: usize) -> bool
    ensures { result ≡ rows D.Words.width most len }
{
    let width = D::size();
    len >= 8 && (len - 8) % width == 0 && (len - 8) / width <= most
}

// The kind that has a number, for the record at a site.
pub(crate) fn known(number: u16, site: Site) -> Result<Kind, Refusal>
    ensures { (w : ℕ) → result_map_both (row_of w) (λ (e : TheRefusal). e) result ≡ given (kinds w number) (UnknownKind site) }
{
    Kind::try_from(number).map_err(|_| Refusal::UnknownKind(site))
}

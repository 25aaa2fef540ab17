// The bytes of a record: its header and its payload.
ghost use Rattle.std.specs.Prelude.{◌≡◌, ◌+◌, ◌*◌, ◌<◌, ◌≤◌, length, take, drop, MatchResult, slice_index};
ghost use Rattle.refusal.specs.declared.Refusal.TheVariants.{CutShort};

use refusal::{Refusal, Site};

// The bytes before a payload.
pub(crate) const HEADER_LEN: usize = 4;

// What they say of it.
#[derive(Clone, Copy)]
pub(crate) struct Header {
    pub(crate) len: u16,
    pub(crate) kind: u16,
}

// So many bytes at a place, or the record is cut short.
pub(crate) fn bytes_at<'a>(
    input: &'a [u8],
    at: usize,
    len: usize,
    site: Site,
) -> Result<&'a [u8], Refusal>
    ensures { MatchResult result (λ p. (at + len ≤ length input.now) × (p.now ≡ take len (drop at input.now))) (λ e. (e ≡ CutShort site) × (length input.now < at + len)) }
{
    let rest = input.get(at..).ok_or(Refusal::CutShort(site))?;
    rest.get(..len).ok_or(Refusal::CutShort(site))
}

pub(crate) fn header_at(input: &[u8], at: usize, site: Site) -> Result<Header, Refusal>
    ensures { MatchResult result (λ h. (at + 4 ≤ length input.now) × (h.len ≡ slice_index input.now at + 256 * slice_index input.now (at + 1)) × (h.kind ≡ slice_index input.now (at + 2) + 256 * slice_index input.now (at + 3))) (λ e. (e ≡ CutShort site) × (length input.now < at + 4)) }
{
    let bytes = bytes_at(input, at, HEADER_LEN, site)?;
    Ok(Header {
        len: u16::from_le_bytes([bytes[0], bytes[1]]),
        kind: u16::from_le_bytes([bytes[2], bytes[3]]),
    })
}

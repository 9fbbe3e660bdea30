//! Which octets an area has, read back and checked (`area_in`).

ghost use Rattle.std.specs.Prelude.{◌≡◌, All, IfSome, IfNone, true, false};
ghost use Rattle.log_files.specs.Area.{IsArea, IsBlank, IsNoArea};

use crate::head::{HEAD_LEN, adler_of, head_in};

// What is in an area: the turn in which it was written, and its octets.
#[derive(Clone, Copy, Debug, PartialEq, Eq)]
pub(crate) struct Area<'a> {
    pub(crate) turn: u64,
    pub(crate) octets: &'a [u8],
}

// What is in the area of this content. None if nothing whole is.
pub(crate) fn area_in(content: &[u8]) -> Option<Area<'_>>
    ensures some { IfSome result (λ area. IsArea content.now area.turn area.octets.now) }
    ensures none { IfNone result (IsNoArea content.now) }
{
    let head = head_in(content)?;
    let len = head.len as usize;
    let (_, octets) = content.split_at(HEAD_LEN);
    if octets.len() < len || adler_of(&octets[..len]) != head.sum {
        return None;
    }
    Some(Area {
        turn: head.turn,
        octets: &octets[..len],
    })
}

// Whether all octets are zero.
fn are_zero(octets: &[u8]) -> bool
    ensures yes { result ≡ true → All (λ octet. octet ≡ 0) octets.now }
    ensures no { result ≡ false → ¬ All (λ octet. octet ≡ 0) octets.now }
{
    octets.iter().all(|octet| *octet == 0)
}

/// Whether the octets of a head are as those of a new file, or as a head that was taken away.
pub fn is_blank(content: &[u8]) -> bool
    ensures yes { result ≡ true → IsBlank content.now }
    ensures no { result ≡ false → ¬ IsBlank content.now }
{
    if content.len() < HEAD_LEN {
        return are_zero(content);
    }
    let (head, _) = content.split_at(HEAD_LEN);
    are_zero(head)
}

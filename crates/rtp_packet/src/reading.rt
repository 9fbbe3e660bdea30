//! Whether octets are an RTP datagram, or its first fault: extension, padding (`parse`).

ghost use Rattle.std.specs.Prelude.{◌≡◌, ◌+◌, ◌≤◌, ℕ, List, true, false, length, IfOk, IsOkAnd, MatchResult};
ghost use Rattle.rtp_packet.specs.Rtp.{Parts, IsDatagram, as_extension};
ghost use Rattle.rtp_packet.specs.Fault.{fault, sources_end, extension_end};
ghost use Rattle.rtp_packet.specs.Fault.{is_short_of_extension, is_badly_padded};
ghost use Rattle.rtp_packet.specs.Read.{extension_of, padding_len, read_of};

use crate::fields::{has_extension, has_padding, header_in, marker_in, sources_end_in, version};
use crate::{HEADER_LEN, RtpFault, RtpView};
use byteorder::{BigEndian, ByteOrder};

// The version of RTP that is read (RFC 3550, 5.1).
const VERSION_2: u8 = 2;

// The octets of an extension's 16-bit field and its count of words (RFC 3550, 5.3.1).
const EXTENSION_HEADER_LEN: usize = 4;

/// Reads a datagram in place (RFC 3550, 5.1).
///
/// The view shows its parts, and the payload without padding.
///
/// # Errors
///
/// The first fault, if the octets are not a datagram.
pub fn parse(octets: &[u8]) -> Result<RtpView<'_>, RtpFault>
    ensures ok { IfOk result (λ parts.
        (count : ℕ) × (padding : List ℕ) × IsDatagram octets.now parts count padding) }
    ensures exact { (parts : Parts) (count : ℕ) (padding : List ℕ)
        → IsDatagram octets.now parts count padding → IsOkAnd result (λ view. view ≡ parts) }
    ensures fault { MatchResult result (λ _. fault octets.now ≡ None) (λ f. fault octets.now ≡ Some f) }

    // the three above as one equation
    ensures read { result ≡ read_of octets.now }
{
    view_in(octets)
}

// The parts of a datagram, or its first fault.
#[tactic(auto, unfolding(crate::specs::Read::read_of, crate::specs::Read::parts_of))]
fn view_in(octets: &[u8]) -> Result<RtpView<'_>, RtpFault>
    ensures { result ≡ read_of octets.now }
{
    if octets.len() < HEADER_LEN {
        return Err(RtpFault::Short);
    }
    if version(octets) != VERSION_2 {
        return Err(RtpFault::Version);
    }
    let start = sources_end_in(octets);
    if octets.len() < start {
        return Err(RtpFault::ShortSources);
    }
    let (extension, end) = extension_in(octets, start)?;
    let padding = padding_in(octets, end)?;
    Ok(RtpView {
        header: header_in(octets),
        marker: marker_in(octets),
        sources: &octets[HEADER_LEN..start],
        extension,
        payload: &octets[end..octets.len() - padding],
    })
}

// The extension, which begins at `start`, and its end.
#[tactic(auto, unfolding(crate::specs::Read::extension_of))]
fn extension_in(octets: &[u8], start: usize) -> Result<(Option<(u16, &[u8])>, usize), RtpFault>
    requires header { 12 ≤ length octets.now }
    requires start { start ≡ sources_end octets.now }
    requires sources { start ≤ length octets.now }
    ensures ok { IfOk result (λ r. as_extension r.0 ≡ extension_of octets.now) }
    ensures end { IfOk result (λ r.
        (r.1 ≡ extension_end octets.now) × (start ≤ r.1) × (r.1 ≤ length octets.now)) }
    ensures fault { MatchResult result (λ _. is_short_of_extension octets.now ≡ false)
        (λ f. (f ≡ RtpFault.ShortExtension) × (is_short_of_extension octets.now ≡ true)) }
{
    if !has_extension(octets) {
        return Ok((None, start));
    }
    let words_start = start + EXTENSION_HEADER_LEN;
    if octets.len() < words_start {
        return Err(RtpFault::ShortExtension);
    }
    let profile = BigEndian::read_u16(&octets[start..start + 2]);
    let words = BigEndian::read_u16(&octets[start + 2..start + 4]);
    let end = words_start + 4 * usize::from(words);
    if octets.len() < end {
        return Err(RtpFault::ShortExtension);
    }
    Ok((Some((profile, &octets[words_start..end])), end))
}

// The number of octets of padding behind the first `start` octets.
#[tactic(auto, unfolding(crate::specs::Read::padding_len))]
fn padding_in(octets: &[u8], start: usize) -> Result<usize, RtpFault>
    requires header { 12 ≤ length octets.now }
    requires start { start ≡ extension_end octets.now }
    requires extension { start ≤ length octets.now }
    ensures ok { IfOk result (λ n. (n ≡ padding_len octets.now) × (start + n ≤ length octets.now)) }
    ensures fault { MatchResult result (λ _. is_badly_padded octets.now ≡ false)
        (λ f. (f ≡ RtpFault.BadPadding) × (is_badly_padded octets.now ≡ true)) }
{
    if !has_padding(octets) {
        return Ok(0);
    }
    let padding = usize::from(octets[octets.len() - 1]);
    if padding == 0 || octets.len() < start + padding {
        return Err(RtpFault::BadPadding);
    }
    Ok(padding)
}

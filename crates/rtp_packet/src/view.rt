//! The header, sources, extension and payload of an RTP datagram read in place (`RtpView`).

use crate::Header;
use std::marker::Model;

/// An RTP datagram, read in place (RFC 3550, 5.1).
///
/// A contract sees it as the record of its parts.
#[derive(Debug, Drop)]
pub struct RtpView<'a> {
    pub(crate) header: Header,
    pub(crate) marker: bool,
    pub(crate) sources: &'a [u8],
    pub(crate) extension: Option<(u16, &'a [u8])>,
    pub(crate) payload: &'a [u8],
}

impl<'a> Model for RtpView<'a> {
    ghost use Rattle.rtp_packet.specs.Rtp.{Parts, as_extension};

    ghost Value = { Parts };

    ghost view = { λ v. record {
      header = v.header;
      marker = v.marker;
      sources = v.sources.now;
      extension = as_extension v.extension;
      payload = v.payload.now;
    } };
}

impl<'a> RtpView<'a> {
    ghost use Rattle.std.specs.Prelude.{◌≡◌};
    ghost use Rattle.rtp_packet.specs.Rtp.{as_extension};

    /// The fields of the fixed header that change in a stream (RFC 3550, 5.1).
    pub fn header(&self) -> Header
        ensures { result ≡ self.now.header }
    {
        self.header
    }

    /// The payload type (RFC 3550, 5.1, PT), 0 to 127 if `parse` read it.
    pub fn payload_type(&self) -> u8
        ensures { result ≡ self.now.header.payload_type }
    {
        self.header.payload_type
    }

    /// The marker, whose meaning the payload type decides (RFC 3550, 5.1, M).
    pub fn marker(&self) -> bool
        ensures { result ≡ self.now.marker }
    {
        self.marker
    }

    /// The sequence number (RFC 3550, 5.1).
    pub fn sequence(&self) -> u16
        ensures { result ≡ self.now.header.sequence }
    {
        self.header.sequence
    }

    /// The timestamp (RFC 3550, 5.1).
    pub fn timestamp(&self) -> u32
        ensures { result ≡ self.now.header.timestamp }
    {
        self.header.timestamp
    }

    /// The synchronization source (RFC 3550, 5.1).
    pub fn ssrc(&self) -> u32
        ensures { result ≡ self.now.header.ssrc }
    {
        self.header.ssrc
    }

    /// The octets of the contributing sources, four for each of at most 15 (RFC 3550, 5.1, CSRC list).
    pub fn sources(&self) -> &'a [u8]
        ensures { result.now ≡ self.now.sources }
    {
        self.sources
    }

    /// The extension's 16-bit field and the octets of its words, if there is one (RFC 3550, 5.3.1).
    pub fn extension(&self) -> Option<(u16, &'a [u8])>
        ensures { as_extension result ≡ self.now.extension }
    {
        self.extension
    }

    /// The payload, without the padding (RFC 3550, 5.1).
    pub fn payload(&self) -> &'a [u8]
        ensures { result.now ≡ self.now.payload }
    {
        self.payload
    }
}

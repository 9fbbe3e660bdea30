//! The playout saved as octets, and loaded from them.

ghost use Rattle.std.specs.Prelude.{◌≡◌, ◌<◌, ◌≤◌, ◌++◌, [], ℕ, List, Option, length, IfSome, IfNone, OnOk};
ghost use Rattle.std.specs.Prelude.{Some};
ghost use Rattle.std.specs.List.{All};
ghost use Rattle.circular_buffer.specs.Buffer.{buffer};
ghost use Rattle.rtp_playout.specs.Calls.{PlayoutCall};
ghost use Rattle.rtp_playout.specs.Saved.{saved_playout, saved_place, saved_places, saved_stream, StreamFits};
ghost use Rattle.rtp_playout.specs.declared.playout.Playout.{Playout};
ghost use Rattle.rtp_playout.specs.declared.playout.RtpStream.{RtpStream};
ghost use Rattle.rtp_playout.specs.Standing.{HasHistory, IsBelow};

use crate::playout::{Playout, RtpStream};
use crate::window::empty;
use circular_buffer::HeapCircularBuffer;
use saved_octets::{OctetReader, append_u8, append_u32};
use std::alloc::AllocError;

impl Playout {
    /// Appends the octets of the playout: the stream and the queued words.
    #[tactic(auto, unfolding(crate::specs::Saved::saved_playout))]
    pub fn save(&self, out: &mut Vec<u8>) -> Result<(), AllocError>
        ensures octets { OnOk result (out.new.items ≡ out.old.items ++ saved_playout self.now) }
        ensures fits { StreamFits self.now.stream }
    {
        save_stream(self.stream, out)?;
        save_places(&self.window, out)
    }

    /// Loads a saved playout into this one, with its prefill.
    ///
    /// None if the octets are not those of a playout whose words are below the bound; then it is empty, as
    /// after `clear`.
    pub fn load(&mut self, bound: u16, octets: &mut OctetReader<'_>) -> Option<()>
        ensures loaded { (other : Playout) (prefill : ℕ) (calls before : List PlayoutCall) (rest : List ℕ)
            → HasHistory other prefill calls → IsBelow bound other → StreamFits other.stream
            → HasHistory self.old prefill before
            → octets.old ≡ saved_playout other ++ rest
            → (result ≡ Some tt) × (self.new ≡ other) × (octets.new ≡ rest) }
        ensures read { IfSome result (λ done. octets.old ≡ saved_playout self.new ++ octets.new) }
        ensures below { IfSome result (λ done. IsBelow bound self.new) }
        ensures none { (prefill : ℕ) (before : List PlayoutCall) → HasHistory self.old prefill before
            → IfNone result (HasHistory self.new prefill []) }
        ensures none_below { (any : ℕ) → IfNone result (IsBelow any self.new) }
    {
        let loaded = self.load_parts(bound, octets);
        if loaded.is_none() {
            empty(&mut self.window);
            self.stream = None;
        }
        loaded
    }
}

fn save_stream(stream: Option<RtpStream>, out: &mut Vec<u8>) -> Result<(), AllocError>
    ensures octets { OnOk result (out.new.items ≡ out.old.items ++ saved_stream stream) }
    ensures fits { StreamFits stream }
{
    match stream {
        None => append_u8(out, 0),
        Some(stream) => {
            append_u8(out, 1)?;
            append_u32(out, stream.ssrc)?;
            append_u32(out, stream.next)
        }
    }
}

fn save_place(place: Option<u8>, out: &mut Vec<u8>) -> Result<(), AllocError>
    ensures { OnOk result (out.new.items ≡ out.old.items ++ saved_place place) }
{
    match place {
        None => append_u8(out, 0),
        Some(word) => {
            append_u8(out, 1)?;
            append_u8(out, word)
        }
    }
}

fn load_stream(octets: &mut OctetReader<'_>) -> Option<Option<RtpStream>>
    ensures loaded { (stream : Option RtpStream) (rest : List ℕ) → StreamFits stream
        → octets.old ≡ saved_stream stream ++ rest → (result ≡ Some stream) × (octets.new ≡ rest) }
    ensures read { IfSome result (λ stream. octets.old ≡ saved_stream stream ++ octets.new) }
{
    match octets.read_u8()? {
        0 => Some(None),
        1 => {
            let ssrc = octets.read_u32()?;
            let next = octets.read_u32()?;
            Some(Some(RtpStream { ssrc, next }))
        }
        _ => None,
    }
}

fn load_place(bound: u16, octets: &mut OctetReader<'_>) -> Option<Option<u8>>
    ensures loaded { (place : Option ℕ) (rest : List ℕ) → IfSome place (λ word. word < bound)
        → octets.old ≡ saved_place place ++ rest → (result ≡ Some place) × (octets.new ≡ rest) }
    ensures read { IfSome result (λ place. octets.old ≡ saved_place place ++ octets.new) }
    ensures below { IfSome result (λ place. IfSome place (λ word. word < bound)) }
{
    match octets.read_u8()? {
        0 => Some(None),
        1 => {
            let word = octets.read_u8()?;
            if u16::from(word) < bound {
                Some(Some(word))
            } else {
                None
            }
        }
        _ => None,
    }
}

// Appends the places of a window, one after the other.
fn save_places(window: &HeapCircularBuffer<Option<u8>>, out: &mut Vec<u8>) -> Result<(), AllocError>
    ensures { OnOk result (out.new.items ≡ out.old.items ++ saved_places window.now.items) }
{
    for i in 0..window.len() {
        save_place(window.get(i).copied().flatten(), out)?;
    }
    Ok(())
}

// Reads as many places as the window has.
fn load_places(
    window: &mut HeapCircularBuffer<Option<u8>>,
    bound: u16,
    octets: &mut OctetReader<'_>,
) -> Option<()>
    ensures loaded { (places : List (Option ℕ)) (rest : List ℕ) → length places ≡ window.old.capacity
        → All (λ place. IfSome place (λ word. word < bound)) places
        → octets.old ≡ saved_places places ++ rest
        → (result ≡ Some tt) × (window.new ≡ buffer places window.old.capacity) × (octets.new ≡ rest) }
    ensures read { IfSome result (λ done. octets.old ≡ saved_places window.new.items ++ octets.new) }
    ensures below { IfSome result (λ done. All (λ place. IfSome place
        (λ word. word < bound)) window.new.items) }
    ensures room { window.new.capacity ≡ window.old.capacity }
{
    window.clear();
    for _ in 0..window.capacity() {
        window.push_back(load_place(bound, octets)?);
    }
    Some(())
}

impl Playout {
    fn load_parts(&mut self, bound: u16, octets: &mut OctetReader<'_>) -> Option<()>
        ensures loaded { (stream : Option RtpStream) (places : List (Option ℕ)) (rest : List ℕ)
            → StreamFits stream → length places ≡ self.old.window.capacity
            → All (λ place. IfSome place (λ word. word < bound)) places
            → octets.old ≡ (saved_stream stream ++ saved_places places) ++ rest
            → (result ≡ Some tt) × (self.new.stream ≡ stream)
            × (self.new.window ≡ buffer places self.old.window.capacity) × (octets.new ≡ rest) }
        ensures read { IfSome result (λ done. octets.old ≡ saved_playout self.new ++ octets.new) }
        ensures below { IfSome result (λ done. All (λ place. IfSome place (λ word. word < bound))
            self.new.window.items) }
        ensures room { self.new.window.capacity ≡ self.old.window.capacity }
        ensures prefill { self.new.prefill ≡ self.old.prefill }
    {
        self.stream = load_stream(octets)?;
        load_places(&mut self.window, bound, octets)
    }
}

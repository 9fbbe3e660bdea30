//! Eight encoders or decoders of one kind, which code some octets or words each at once (`Bundle`).

ghost use Rattle.std.specs.Prelude.{◌≡◌, ◌≢◌, ◌<◌, ◌≤◌, length, take};
ghost use Rattle.g726_codec.specs.Kinds.{rate_tables, words_by, octets_by, after_by};
ghost use Rattle.g726_lanes.specs.Lanes.{row_at, EachLane};
ghost use Rattle.g726_lanes.specs.States.{variables};

use crate::lanes::Lanes;
use e1_g711::Law;
use g726_codec::{CodecKind, State};
use g726_quant::{R16, R24, R32, R40};

/// The most octets of each encoder, or words of each decoder, that are coded at once.
pub const FRAMES: usize = 32;

/// The encoders of eight circuits of one kind and law, circuit k in lane k, 0 to 7, with as many octets of
/// each, or their decoders with as many words of each.
///
/// A lane that is not loaded is coded like the others.
#[derive(Drop)]
pub struct Bundle {
    /// The law.
    pub law: Law,
    /// The kind.
    pub kind: CodecKind,
    /// How many octets or words each circuit has.
    pub count: usize,
    /// The states.
    pub lanes: Lanes,
    /// The octets of each circuit, or once they are encoded their words; the other way round for decoders.
    pub octets: [[u8; 32]; 8],
    /// The words that were decoded.
    pub words: [[u8; 32]; 8],
    ghost few: { count ≤ 32 },
}

// Puts octets at the start of a row.
fn put_row(numbers: &mut [u8; 32], octets: &[u8])
    requires { length octets.now ≤ 32 }
    ensures { take (length octets.now) numbers.new ≡ octets.now }
{
    numbers[..octets.len()].copy_from_slice(octets);
}

impl Bundle {
    ghost use Rattle.std.specs.Prelude.{◌≡◌, ◌≢◌, ◌<◌, ◌≤◌, length, take};
    ghost use Rattle.g726_codec.specs.Kinds.{rate_tables, words_by, octets_by, after_by};
    ghost use Rattle.g726_lanes.specs.Lanes.{EachLane};
    ghost use Rattle.g726_lanes.specs.States.{variables};
    ghost use Rattle.g726_lanes.specs.Bundles.{lane_octets, lane_words, AllFit};

    /// Eight encoders or decoders of a kind at reset, with this many octets or words each, which are 0.
    pub fn new(law: Law, kind: CodecKind, count: usize) -> Bundle
        requires { count ≤ 32 }
        ensures kind { (result.law ≡ law) × (result.kind ≡ kind) × (result.count ≡ count) }
        ensures fit { AllFit result }
    {
        Bundle {
            law,
            kind,
            count,
            lanes: Lanes::reset(),
            octets: [[0; 32]; 8],
            words: [[0; 32]; 8],
        }
    }

    /// Puts the state of an encoder and its next octets, or of a decoder and its next words, into lane `k`, 0
    /// to 7. The other lanes stay as they are.
    pub fn load(&mut self, k: usize, state: &State, octets: &[u8])
        requires lane { k < 8 }
        requires count { length octets.now ≡ self.old.count }
        ensures state { variables self.new.lanes k ≡ state.now }
        ensures octets { lane_octets self.new k ≡ octets.now }
        ensures states { EachLane (λ j. j ≢ k → variables self.new.lanes j ≡ variables self.old.lanes j) }
        ensures others { EachLane (λ j. j ≢ k → lane_octets self.new j ≡ lane_octets self.old j) }
        ensures kept { (self.new.law ≡ self.old.law) × (self.new.kind ≡ self.old.kind)
            × (self.new.count ≡ self.old.count) }
    {
        self.lanes.load(k, state);
        put_row(&mut self.octets[k], octets);
    }

    /// Codes the octets of each lane, which then has their words, and the state after them.
    pub fn encode(&mut self)
        ensures words { EachLane (λ k. lane_octets self.new k ≡ words_by (rate_tables self.old.kind)
            self.old.law (variables self.old.lanes k) (lane_octets self.old k)) }
        ensures states { EachLane (λ k. variables self.new.lanes k ≡ after_by (rate_tables self.old.kind)
            (variables self.old.lanes k) (lane_octets self.new k)) }
        ensures kept { (self.new.law ≡ self.old.law) × (self.new.kind ≡ self.old.kind)
            × (self.new.count ≡ self.old.count) }
    {
        let (law, count) = (self.law, self.count);
        match self.kind {
            CodecKind::G711 => {}
            CodecKind::G16 => self.lanes.encode_rows::<R16>(law, &mut self.octets, count),
            CodecKind::G24 => self.lanes.encode_rows::<R24>(law, &mut self.octets, count),
            CodecKind::G32 => self.lanes.encode_rows::<R32>(law, &mut self.octets, count),
            CodecKind::G40 => self.lanes.encode_rows::<R40>(law, &mut self.octets, count),
        }
    }

    /// Decodes the words of each lane, below `2^bits`, which then has their octets, and the state after the
    /// words.
    pub fn decode(&mut self)
        requires { AllFit self.old }
        ensures octets { EachLane (λ k. lane_octets self.new k ≡ octets_by (rate_tables self.old.kind)
            self.old.law (variables self.old.lanes k) (lane_words self.new k)) }
        ensures states { EachLane (λ k. variables self.new.lanes k ≡ after_by (rate_tables self.old.kind)
            (variables self.old.lanes k) (lane_words self.new k)) }
        ensures words { EachLane (λ k. lane_words self.new k ≡ lane_octets self.old k) }
    {
        self.words = self.octets;
        let (law, count) = (self.law, self.count);
        match self.kind {
            CodecKind::G711 => {}
            CodecKind::G16 => self.lanes.decode_rows::<R16>(law, &mut self.octets, count),
            CodecKind::G24 => self.lanes.decode_rows::<R24>(law, &mut self.octets, count),
            CodecKind::G32 => self.lanes.decode_rows::<R32>(law, &mut self.octets, count),
            CodecKind::G40 => self.lanes.decode_rows::<R40>(law, &mut self.octets, count),
        }
    }

    /// The state in lane `k`, 0 to 7.
    pub fn state(&self, k: usize) -> State
        requires { k < 8 }
        ensures { result ≡ variables self.now.lanes k }
    {
        self.lanes.store(k)
    }

    /// The row of lane `k`, 0 to 7, which begins with its octets, or once they are encoded with their words.
    pub fn octets(&self, k: usize) -> [u8; 32]
        requires { k < 8 }
        ensures { take self.now.count result ≡ lane_octets self.now k }
    {
        self.octets[k]
    }

    /// The row of lane `k`, 0 to 7, which begins with the words that were decoded.
    pub fn words(&self, k: usize) -> [u8; 32]
        requires { k < 8 }
        ensures { take self.now.count result ≡ lane_words self.now k }
    {
        self.words[k]
    }
}

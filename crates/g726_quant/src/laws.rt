//! Laws of `wrap16`, numbers of bits, DLN and code words: which are sent, which magnitudes they have.

ghost use Rattle.g726_quant.specs.Laws.{WrapsTo16Bits, NumberOfBitsIsLeast, DlnHasTwelveBits};
ghost use Rattle.g726_quant.specs.Laws.{AllZerosNeverSent, MagnitudesComeBack};

/// `wrap16` returns a 16-bit number that differs by a multiple of 65536.
pub fn wraps_to_16_bits()
    ensures { WrapsTo16Bits }
{}

/// The number of bits of `m` is the least `k` with `m < 2^k`.
pub fn number_of_bits_is_least()
    ensures { NumberOfBitsIsLeast }
{}

/// At scale factors from 544 to 5120 DLN is a twelve-bit number in two's complement.
pub fn dln_has_twelve_bits()
    ensures { DlnHasTwelveBits }
{}

/// At 24, 32 and 40 kbit/s the word of all zeros is never sent.
#[tactic(auto, using(crate::proofs::Words::never_all_zeros))]
pub fn all_zeros_never_sent()
    ensures { AllZerosNeverSent }
{}

/// A word has the magnitude that it was made from.
pub fn magnitudes_come_back()
    ensures { MagnitudesComeBack }
{}

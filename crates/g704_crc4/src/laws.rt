//! Laws of CRC-4: what is sent is found right, a bit error is found, and E bits report it.

ghost use Rattle.g704_crc4.specs.Polynomials.{RemainderIsLeft};
ghost use Rattle.g704_crc4.specs.Checking.{SentIsRight, OneErrorIsFound};
ghost use Rattle.g704_crc4.specs.Reporting.{EachIsReported, NoneIsReported};
ghost use Rattle.g704_crc4.specs.Receiving.{LengthIsKept, OthersAreKept, CheckBitsAreRight, SignalIsSent};

/// The four bits are the remainder of the bits' polynomial, multiplied by x^4 and divided modulo 2 by the
/// generator x^4+x+1 (ITU-T G.704, 2.3.3.5).
#[tactic(auto, using(crate::proofs::Division::divided))]
pub fn remainder_is_left()
    ensures { RemainderIsLeft }
{}

/// One octet is sent for each received.
#[tactic(auto, using(crate::proofs::Sent::kept_length))]
pub fn length_is_kept()
    ensures { LengthIsKept }
{}

/// Each bit except bit 1 of time slot 0 is sent unchanged.
pub fn others_are_kept()
    ensures { OthersAreKept }
{}

/// A receiver finds every whole submultiframe right, whatever was sent through.
#[tactic(auto, using(crate::proofs::CheckBits::right_check_bits))]
pub fn check_bits_are_right()
    ensures { CheckBitsAreRight }
{}

/// A receiver finds the alignment signal in every whole multiframe, whatever was sent through.
pub fn signal_is_sent()
    ensures { SignalIsSent }
{}

/// A submultiframe received as it was sent is right.
#[tactic(auto, using(crate::proofs::Errors::right_sent))]
pub fn sent_is_right()
    ensures { SentIsRight }
{}

/// A submultiframe with a single bit error has another remainder.
#[tactic(auto, using(crate::proofs::Errors::one_error))]
pub fn one_error_is_found()
    ensures { OneErrorIsFound }
{}

/// Each errored submultiframe is reported by one E bit sent as 0 or is not yet reported.
#[tactic(auto, using(crate::proofs::Reports::each_reported))]
pub fn each_is_reported()
    ensures { EachIsReported }
{}

/// Without an errored submultiframe each E bit is sent as 1.
#[tactic(auto, using(crate::proofs::Reports::none_reported))]
pub fn none_is_reported()
    ensures { NoneIsReported }
{}

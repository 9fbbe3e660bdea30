//! The number in one lane, read, replaced, and made of a signed number.
ghost use Rattle.std.specs.Prelude.{◌≡◌, ◌≢◌, ◌<◌};
ghost use Rattle.std.specs.Int.{cast_signed, w16};
ghost use Rattle.g726_lanes.specs.Lanes.{lane, EachLane};

// A signed number in two's complement.
#[inline(always)]
pub(crate) fn bits_of(number: i16) -> u16
    ensures { cast_signed w16 result ≡ number }
{
    number.cast_unsigned()
}

// The number in lane k.
#[inline(always)]
pub(crate) fn lane(numbers: [u16; 8], k: usize) -> u16
    requires { k < 8 }
    ensures { result ≡ lane numbers k }
{
    numbers[k]
}

// Puts a number into lane k.
#[inline(always)]
pub(crate) fn put_lane(numbers: &mut [u16; 8], k: usize, number: u16)
    requires { k < 8 }
    ensures own { lane numbers.new k ≡ number }
    ensures others { EachLane (λ j. j ≢ k → lane numbers.new j ≡ lane numbers.old j) }
{
    numbers[k] = number;
}

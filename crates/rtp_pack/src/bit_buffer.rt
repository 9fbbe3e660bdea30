//! The bits that are left between words and octets, the first lowest (`BitBuffer`).

ghost use Rattle.std.specs.Prelude.{◌≡◌, ◌+◌, ◌*◌, ◌/◌, ◌%◌, ◌^◌, ◌<◌, ◌≤◌};

// Bits received and not yet given out: their number, the first lowest, and their count.
#[derive(Clone, Copy, Debug)]
pub(crate) struct BitBuffer {
    pub(crate) number: u16,
    pub(crate) count: u8,
    ghost fits: { number < 2 ^ count },
}

impl BitBuffer {
    // A buffer without bits.
    pub(crate) fn none() -> Self
        ensures number { result.number ≡ 0 }
        ensures count { result.count ≡ 0 }
    {
        BitBuffer {
            number: 0,
            count: 0,
        }
    }

    // Adds a number of this many bits above the present ones.
    #[inline]
    #[tactic(auto, using(crate::proofs::Bits::bits_above))]
    pub(crate) fn push(&mut self, number: u8, bits: u8)
        requires size { bits ≤ 8 }
        requires fits { number < 2 ^ bits }
        requires room { self.old.count < 8 }
        ensures number { self.new.number ≡ self.old.number + number * 2 ^ self.old.count }
        ensures count { self.new.count ≡ self.old.count + bits }
    {
        self.number += u16::from(number) << self.count;
        self.count += bits;
    }

    // Takes the number of the first bits.
    #[inline]
    #[tactic(auto, using(crate::proofs::Bits::bits_behind))]
    pub(crate) fn pop(&mut self, bits: u8) -> u8
        requires size { bits ≤ 8 }
        requires enough { bits ≤ self.old.count }
        ensures first { result ≡ self.old.number % 2 ^ bits }
        ensures number { self.new.number ≡ self.old.number / 2 ^ bits }
        ensures count { self.new.count + bits ≡ self.old.count }
    {
        let size = 1u16 << bits;
        let first = (self.number % size) as u8;
        self.number /= size;
        self.count -= bits;
        first
    }
}

//! The range, sign and magnitude of a code word (`Word`), and the order in which SYNC compares words.

ghost use Rattle.std.specs.Prelude.{◌≡◌, ◌<◌, ◌≤◌, ◌^◌, ℕ, SomeIff};
ghost use Rattle.g726_quant.specs.Tables.{magnitudes};
ghost use Rattle.g726_quant.specs.Blocks.{word_is_negative, word_magnitude, word_order, quan_word};

use crate::rate::Rate;
use std::marker::{Model, PhantomData};

/// A code word of a rate, a number below `2^bits`. Contracts see the number.
#[derive(Clone, Copy, Debug, PartialEq, Eq)]
pub struct Word<R: Rate> {
    number: u8,
    rate: PhantomData<R>,
}

impl<R: Rate> Model for Word<R> {
    ghost Value = { ℕ };

    ghost view = { λ w. w.number };

    ghost invariant = { λ w. w.number < 2 ^ R.tables.bits };

    ghost inverse = { λ number. record { number = number; rate = record {} } };
}

impl<R: Rate> Word<R> {
    /// The word with a number, or `None` if it is not below `2^bits`.
    pub fn new(number: u8) -> Option<Word<R>>
        ensures { SomeIff result (number < 2 ^ R.tables.bits) number }
    {
        if number < 1 << R::BITS {
            Some(Word {
                number,
                rate: PhantomData,
            })
        } else {
            None
        }
    }

    /// The number of the word.
    pub fn get(self) -> u8
        ensures value { result ≡ self }
        ensures bound { result < 2 ^ R.tables.bits }
    {
        self.number
    }

    // I, the word of a sign DS and a magnitude. With more than two bits 0 is sent as all ones (block QUAN).
    pub(crate) fn quan_word(negative: bool, magnitude: u8) -> Word<R>
        requires { magnitude < magnitudes R.tables.bits }
        ensures { result ≡ quan_word R.tables.bits negative magnitude }
    {
        let is_complement = negative || (R::BITS > 2 && magnitude == 0);
        let number = if is_complement {
            (1 << R::BITS) - 1 - magnitude
        } else {
            magnitude
        };
        Word {
            number,
            rate: PhantomData,
        }
    }
}

/// The magnitude of a word, below `2^(bits-1)`.
///
/// It is that of the complement if the top bit is set (ITU-T G.726, block RECONST). A word of all zeros,
/// which no encoder sends at 24, 32 and 40 kbit/s, has magnitude 0 at every rate (our choice).
pub fn magnitude<R: Rate>(word: Word<R>) -> u8
    ensures value { result ≡ word_magnitude R.tables.bits word }
    ensures bound { result < magnitudes R.tables.bits }
{
    let number = word.get();
    if word_is_negative::<R>(number) {
        (1 << R::BITS) - 1 - number
    } else {
        number
    }
}

/// The word with its top bit inverted, as block SYNC of ITU-T G.726 compares words.
pub fn order<R: Rate>(word: Word<R>) -> u8
    ensures value { result ≡ word_order R.tables.bits word }
    ensures bound { result < 2 ^ R.tables.bits }
{
    let number = word.get();
    if word_is_negative::<R>(number) {
        number - magnitudes::<R>()
    } else {
        number + magnitudes::<R>()
    }
}

// DQS, whether the top bit of a word is set.
pub(crate) fn word_is_negative<R: Rate>(number: u8) -> bool
    ensures { result ≡ word_is_negative R.tables.bits number }
{
    number >= magnitudes::<R>()
}

// The number of magnitudes, which is also the value of the top bit.
fn magnitudes<R: Rate>() -> u8
    ensures value { result ≡ magnitudes R.tables.bits }
    ensures bound { result ≤ 16 }
{
    1 << (R::BITS - 1)
}

//! A difference to its code word I: blocks LOG, SUBTB and QUAN of ITU-T G.726 (`quantise`).

ghost use Rattle.std.specs.Prelude.{◌≡◌, ◌≢◌, ◌≤◌, ◌<◌, negsuc, length, IsTrue};
ghost use Rattle.g726_quant.specs.Tables.{is_rising};
ghost use Rattle.g726_quant.specs.Blocks.{subtb, quan_magnitude, quan, quantised};

use crate::logarithm::log;
use crate::rate::Rate;
use crate::word::Word;

/// I, the code word of a difference at a scale factor.
///
/// It is 15 for `d` = 0 at `y` = 544 and 32 kbit/s (ITU-T G.726, blocks LOG, SUBTB and QUAN).
pub fn quantise<R: Rate>(d: i16, y: u16) -> Word<R>
    requires difference { d ≢ negsuc 32767 }
    requires low { 544 ≤ y }
    requires high { y ≤ 5120 }
    ensures { result ≡ quantised R.tables d y }
{
    let dl = log(d.unsigned_abs());
    quan(d < 0, subtb(dl, y))
}

// SUBTB: DLN, the logarithm DL less the scale factor.
fn subtb(dl: u16, y: u16) -> i16
    requires dl { dl < 1920 }
    requires y { y ≤ 5120 }
    ensures { result ≡ subtb dl y }
{
    dl as i16 - (y >> 2) as i16
}

// QUAN: I, by the sign DS.
fn quan<R: Rate>(ds: bool, dln: i16) -> Word<R>
    ensures { result ≡ quan R.tables ds dln }
{
    Word::quan_word(ds, quan_magnitude(R::thresholds(), dln) as u8)
}

// QUAN: the number of rising thresholds at or below DLN.
fn quan_magnitude(thresholds: &[i16], dln: i16) -> usize
    requires { IsTrue (is_rising thresholds.now) }
    ensures value { result ≡ quan_magnitude thresholds.now dln }
    ensures bound { result ≤ length thresholds.now }
{
    thresholds.partition_point(|threshold| *threshold <= dln)
}

//! The tables of the four rates of ITU-T G.726 (`Rate`): blocks FUNCTW, FUNCTF, thresholds, levels, leak.

ghost use Rattle.std.specs.Prelude.{◌≡◌, ◌<◌, ◌≤◌, ℕ, pos, negsuc, ◌≤ℤ◌, IsTrue, refl};
ghost use Rattle.g726_quant.specs.Tables.{RateTables, magnitudes, has_its_places, is_rising, is_in_range};
ghost use Rattle.g726_quant.specs.Tables.{tables16, tables24, tables32, tables40};
ghost use Rattle.g726_quant.specs.Blocks.{functw, functf, reconst};

/// A rate of ITU-T G.726, given by its tables.
///
/// Each table has an entry for each magnitude of a code word. A rate is a type without values of its own.
pub trait Rate: Copy {
    ghost tables: { RateTables };

    ghost BITS: { ℕ };

    ghost LEAK: { ℕ };

    /// The bits of a code word, 2 to 5.
    const BITS: u32;

    /// k, the shift of the leak in block UPB, 8 or 9.
    const LEAK: u32;

    /// The rising thresholds of block QUAN, one less than the magnitudes.
    fn thresholds() -> &'static [i16]
        ensures { result.now ≡ tables.thresholds };

    /// DQLN, the logarithms of the quantised differences, -2048 to 566.
    fn log_levels() -> &'static [i16]
        ensures { result.now ≡ tables.log_levels };

    /// W, the multipliers of the scale factor, -22 to 1122.
    fn multipliers() -> &'static [i16]
        ensures { result.now ≡ tables.multipliers };

    /// F, the values of the speed control, at most 7.
    fn speed_values() -> &'static [u8]
        ensures { result.now ≡ tables.speed_values };

    ghost laws: { record {
      bits : BITS ≡ tables.bits;
      leak : LEAK ≡ tables.leak;
      places : IsTrue (has_its_places tables);
      rising : IsTrue (is_rising tables.thresholds);
      ranges : IsTrue (is_in_range tables);
    } };
}

/// 16 kbit/s, two bits a word.
#[derive(Clone, Copy, Debug, PartialEq, Eq)]
pub struct R16;

impl Rate for R16 {
    ghost tables = { tables16 };

    ghost BITS = { 2 };

    ghost LEAK = { 8 };

    const BITS: u32 = 2;

    const LEAK: u32 = 8;

    fn thresholds() -> &'static [i16] {
        &[261]
    }

    fn log_levels() -> &'static [i16] {
        &[116, 365]
    }

    fn multipliers() -> &'static [i16] {
        &[-22, 439]
    }

    fn speed_values() -> &'static [u8] {
        &[0, 7]
    }

    ghost laws = { record { bits = refl; leak = refl; places = refl; rising = refl; ranges = refl } };
}

/// 24 kbit/s, three bits a word.
#[derive(Clone, Copy, Debug, PartialEq, Eq)]
pub struct R24;

impl Rate for R24 {
    ghost tables = { tables24 };

    ghost BITS = { 3 };

    ghost LEAK = { 8 };

    const BITS: u32 = 3;

    const LEAK: u32 = 8;

    fn thresholds() -> &'static [i16] {
        &[8, 218, 331]
    }

    fn log_levels() -> &'static [i16] {
        &[-2048, 135, 273, 373]
    }

    fn multipliers() -> &'static [i16] {
        &[-4, 30, 137, 582]
    }

    fn speed_values() -> &'static [u8] {
        &[0, 1, 2, 7]
    }

    ghost laws = { record { bits = refl; leak = refl; places = refl; rising = refl; ranges = refl } };
}

/// 32 kbit/s, four bits a word.
#[derive(Clone, Copy, Debug, PartialEq, Eq)]
pub struct R32;

impl Rate for R32 {
    ghost tables = { tables32 };

    ghost BITS = { 4 };

    ghost LEAK = { 8 };

    const BITS: u32 = 4;

    const LEAK: u32 = 8;

    fn thresholds() -> &'static [i16] {
        &[-124, 80, 178, 246, 300, 349, 400]
    }

    fn log_levels() -> &'static [i16] {
        &[-2048, 4, 135, 213, 273, 323, 373, 425]
    }

    fn multipliers() -> &'static [i16] {
        &[-12, 18, 41, 64, 112, 198, 355, 1122]
    }

    fn speed_values() -> &'static [u8] {
        &[0, 0, 0, 1, 1, 1, 3, 7]
    }

    ghost laws = { record { bits = refl; leak = refl; places = refl; rising = refl; ranges = refl } };
}

/// 40 kbit/s, five bits a word.
#[derive(Clone, Copy, Debug, PartialEq, Eq)]
pub struct R40;

impl Rate for R40 {
    ghost tables = { tables40 };

    ghost BITS = { 5 };

    ghost LEAK = { 9 };

    const BITS: u32 = 5;

    const LEAK: u32 = 9;

    fn thresholds() -> &'static [i16] {
        &[
            -122, -16, 68, 139, 198, 250, 298, 339, 378, 413, 445, 475, 502, 528, 553,
        ]
    }

    fn log_levels() -> &'static [i16] {
        &[
            -2048, -66, 28, 104, 169, 224, 274, 318, 358, 395, 429, 459, 488, 514, 539, 566,
        ]
    }

    fn multipliers() -> &'static [i16] {
        &[
            14, 14, 24, 39, 40, 41, 58, 100, 141, 179, 219, 280, 358, 440, 529, 696,
        ]
    }

    fn speed_values() -> &'static [u8] {
        &[0, 0, 0, 0, 0, 1, 1, 1, 1, 1, 2, 3, 4, 5, 6, 6]
    }

    ghost laws = { record { bits = refl; leak = refl; places = refl; rising = refl; ranges = refl } };
}

/// WI, the multiplier of the scale factor for a magnitude (ITU-T G.726, block FUNCTW).
pub fn functw<R: Rate>(magnitude: u8) -> i16
    requires { magnitude < magnitudes R.tables.bits }
    ensures value { result ≡ functw R.tables magnitude }
    ensures low { negsuc 21 ≤ℤ result }
    ensures high { result ≤ℤ pos 1122 }
{
    R::multipliers()[magnitude as usize]
}

/// FI, the value of the speed control for a magnitude (ITU-T G.726, block FUNCTF).
pub fn functf<R: Rate>(magnitude: u8) -> u8
    requires { magnitude < magnitudes R.tables.bits }
    ensures value { result ≡ functf R.tables magnitude }
    ensures high { result ≤ 7 }
{
    R::speed_values()[magnitude as usize]
}

/// k, the shift of the leak at the rate (ITU-T G.726, block UPB).
pub fn leak<R: Rate>() -> u32
    ensures value { result ≡ R.tables.leak }
    ensures low { 8 ≤ result }
    ensures high { result ≤ 9 }
{
    R::LEAK
}

// DQLN, the logarithm of the quantised difference for a magnitude.
pub(crate) fn reconst<R: Rate>(magnitude: u8) -> i16
    requires { magnitude < magnitudes R.tables.bits }
    ensures value { result ≡ reconst R.tables magnitude }
    ensures low { negsuc 2047 ≤ℤ result }
    ensures high { result ≤ℤ pos 566 }
{
    R::log_levels()[magnitude as usize]
}

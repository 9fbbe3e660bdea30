//! The variables of the adaptation as natural numbers, and the adaptation that has such numbers.

ghost use Rattle.std.specs.Prelude.{◌≡◌};
ghost use Rattle.g726_tone.specs.Adaptation.{InRange};
ghost use Rattle.g726_tone.specs.Numbers.{adaptation_of};

use crate::adapt::Adapt;
use crate::scale::{lima, mix};

/// The numbers of an adaptation.
#[derive(Clone, Copy)]
pub struct AdaptNumbers {
    /// YU, 544 to 5120.
    pub yu: u16,
    /// YL, 34816 to 327680.
    pub yl: u32,
    /// DMS, 0 to 3584.
    pub dms: u16,
    /// DML, 0 to 14336.
    pub dml: u16,
    /// AP, 0 to 512.
    pub ap: u16,
    /// TD.
    pub td: bool,
}

impl Adapt {
    /// The numbers of the variables.
    pub fn numbers(&self) -> AdaptNumbers
        ensures value { adaptation_of result ≡ self.now }
        ensures in_range { InRange self.now }
    {
        AdaptNumbers {
            yu: self.yu as u16,
            yl: self.yl as u32,
            dms: self.dms as u16,
            dml: self.dml as u16,
            ap: self.ap as u16,
            td: self.td,
        }
    }

    /// The adaptation that has these numbers, each in its range.
    pub fn of_numbers(numbers: AdaptNumbers) -> Adapt
        requires { InRange (adaptation_of numbers) }
        ensures { result ≡ adaptation_of numbers }
    {
        let yu = i32::from(numbers.yu);
        let yl = numbers.yl as i32;
        let ap = i32::from(numbers.ap);
        Adapt {
            yu,
            yl,
            dms: i32::from(numbers.dms),
            dml: i32::from(numbers.dml),
            ap,
            td: numbers.td,
            y: mix(yu, yl, lima(ap)),
        }
    }
}

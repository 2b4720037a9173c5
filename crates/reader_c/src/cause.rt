//! Why a call was refused, as numbers.
ghost use Rattle.std.specs.Prelude.{◌≡◌, [], ◌∷◌};
ghost use Rattle.source.specs.Refusals.{numbers};
ghost use Rattle.reader_c.specs.Causes.{cause};

use source::Place;

/// The number of a refusal, and up to three numbers that are returned with it; all are 0 where nothing was refused.
#[repr(C)]
#[derive(Clone, Copy)]
pub struct Cause {
    pub number: u8,
    pub first: usize,
    pub second: usize,
    pub third: usize,
}

/// Nothing was refused.
pub(crate) const NONE: Cause = Cause {
    number: 0,
    first: 0,
    second: 0,
    third: 0,
};

impl Cause {
    /// Returned with one number.
    pub(crate) fn with(number: u8, value: usize) -> Cause
        ensures { result ≡ cause (record { number = number; returned = value ∷ [] }) }
    {
        Cause {
            number,
            first: value,
            second: 0,
            third: 0,
        }
    }

    /// Returned with a place.
    pub(crate) fn at(number: u8, place: Place) -> Cause
        ensures { result ≡ cause (record { number = number; returned = numbers place }) }
    {
        match place {
            Place::One(at) => Cause::with(number, at as usize),
            Place::Two(line, column) => Cause {
                number,
                first: line as usize,
                second: column as usize,
                third: 0,
            },
        }
    }

    /// Returned with the number of a fault and its place.
    pub(crate) fn by_fault(number: u8, fault: u8, place: Place) -> Cause
        ensures { result ≡ cause (record { number = number; returned = fault ∷ numbers place }) }
    {
        let at = Cause::at(number, place);
        Cause {
            number,
            first: fault as usize,
            second: at.first,
            third: at.second,
        }
    }
}

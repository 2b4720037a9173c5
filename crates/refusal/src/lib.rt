//! Refusals and faults go by numbers, and each is returned with some numbers.
#![tactic(auto)]

ghost use Rattle.std.specs.Prelude.{◌≡◌, ℕ, option_map};

use std::convert::Infallible;

/// A refusal or a fault that has a number.
pub trait Numbered {
    ghost number: { Self → ℕ };

    /// The number of the fault that is given. A type without values never has to give one, and can promise it all the same.
    fn number_of(fault: Option<&Self>) -> Option<u8>
        ensures { result ≡ option_map (λ f. number f.now) fault.entry };

    /// The number that it is known by.
    final fn number(&self) -> u8
        ensures { result ≡ number self.now }
    {
        match Self::number_of(Some(self)) {
            Some(number) => number,
            None => unreachable(),
        }
    }
}

impl Numbered for Infallible {
    ghost number = { λ _. 0 };

    fn number_of(fault: Option<&Infallible>) -> Option<u8> {
        match *fault? {}
    }
}

//! What can go wrong with sources, and the numbers that it is known by.
ghost use Rattle.std.specs.Prelude.{◌≡◌, ◌≤◌, MatchResult};
ghost use Rattle.source.specs.Opening.{Refused};
ghost use Rattle.source.specs.Refusals.{layer_number, lift, too_long};

use crate::token::Place;
use refusal::Numbered;

/// More bytes than a source is opened on.
#[derive(Clone, Copy, PartialEq, Eq, Debug)]
pub struct TooLong {
    pub length: usize,
}

/// The bound of every source: more than 60,000 bytes are refused.
pub fn check_length(length: usize) -> Result<(), TooLong>
    ensures { MatchResult result (λ _. length ≤ 60000) (Refused length) }
{
    if length > 60_000 {
        return Err(TooLong { length });
    }
    Ok(())
}

impl Numbered for TooLong {
    ghost number = { λ e. (too_long e).number };

    fn number_of(refusal: Option<&TooLong>) -> Option<u8> {
        refusal.map(|_| 18)
    }
}

/// A fault, and where the source met it.
#[derive(Clone, Copy, PartialEq, Eq, Debug)]
pub struct Faulted<F> {
    pub fault: F,
    pub place: Place,
}

/// A fault as a layer reports it: one that came up from the source below, or the layer's own.
#[derive(Clone, Copy, PartialEq, Eq, Debug)]
pub enum LayerFault<F> {
    Under(F),
    QuotaUsed,
}

impl<F: Numbered> Numbered for LayerFault<F> {
    ghost number = { layer_number F.Numbered.number };

    fn number_of(fault: Option<&LayerFault<F>>) -> Option<u8> {
        match fault? {
            LayerFault::Under(fault) => F::number_of(Some(fault)),
            LayerFault::QuotaUsed => Some(22),
        }
    }
}

impl<F> From<Faulted<F>> for Faulted<LayerFault<F>> {
    ghost from_gives = { λ f r. r ≡ lift f };

    fn from(faulted: Faulted<F>) -> Faulted<LayerFault<F>> {
        Faulted {
            fault: LayerFault::Under(faulted.fault),
            place: faulted.place,
        }
    }
}

//! Places, refusals and faults as text.
ghost use Rattle.source.specs.Shown.{shown_place, shown_too_long, shown_layer_fault};

use crate::fault::{LayerFault, TooLong};
use crate::token::Place;
use std::fmt;

impl fmt::Display for Place {
    ghost output = { shown_place };

    fn fmt<W: fmt::Write>(&self, f: &mut fmt::Formatter<W>) -> fmt::Result {
        match self {
            Place::One(n) => write!(f, "{n}"),
            Place::Two(line, column) => write!(f, "{line}:{column}"),
        }
    }
}

impl fmt::Display for TooLong {
    ghost output = { shown_too_long };

    fn fmt<W: fmt::Write>(&self, f: &mut fmt::Formatter<W>) -> fmt::Result {
        f.write_str("more than 60,000 bytes")
    }
}

impl<F: fmt::Display> fmt::Display for LayerFault<F> {
    ghost output = { shown_layer_fault F.Display.output };

    fn fmt<W: fmt::Write>(&self, f: &mut fmt::Formatter<W>) -> fmt::Result {
        match self {
            LayerFault::Under(fault) => fault.fmt(f),
            LayerFault::QuotaUsed => f.write_str("the quota is used up"),
        }
    }
}

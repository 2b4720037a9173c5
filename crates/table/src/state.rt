//! The states of a table as sets that can be compared.
use items::Places;
use words::Words;

/// A state: its kernel places and its lookahead words.
#[derive(Clone, Copy, PartialEq, Eq)]
pub struct State<const K: usize> {
    pub places: Places,
    pub words: Words<K>,
}

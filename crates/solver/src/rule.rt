//! Rules as the solver takes them.

/// A rule: the nonterminal on its left, and the symbols on its right. Symbols below 32 are tokens, and 32 is the first
/// nonterminal.
#[derive(Clone, Copy)]
pub struct Rule<'a> {
    pub left: u8,
    pub right: &'a [u8],
}

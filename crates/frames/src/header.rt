//! The numbers of a table, and the sections of a state.
ghost use Rattle.std.specs.Prelude.{◌≡◌};
ghost use Rattle.frames.specs.Raw.{place};
ghost use Rattle.frames.specs.Form.{tag, section_at, width};

/// The numbers that the first frame gives: symbols of lookahead, token kinds, nonterminals, rules and states.
#[derive(Clone, Copy)]
pub struct Header {
    pub k: u8,
    pub t: u8,
    pub n: u8,
    pub p: u8,
    pub s: u8,
}

/// The four frames of a state, in their order.
#[derive(Clone, Copy)]
pub enum Section {
    /// Pairs of a rule and a dot.
    Kernel,
    /// Pairs of the first and the second symbol of a word, the second 0 where there is none.
    Words,
    /// Pairs of a symbol and a state.
    Successors,
    /// A nonterminal, the two symbols of a word, and a rule.
    Choices,
}

impl Section {
    // The section at a place, counted from the first state's first one.
    pub(crate) fn at(i: u16) -> Section
        ensures { result ≡ section_at i }
    {
        [
            Section::Kernel,
            Section::Words,
            Section::Successors,
            Section::Choices,
        ][i as usize % 4]
    }

    // Its place among those of a state.
    pub(crate) fn place(self) -> u8
        ensures { result ≡ place self }
    {
        self as u8
    }

    // The tag that its frame begins with.
    pub(crate) fn tag(self) -> u8
        ensures { result ≡ tag self }
    {
        3 + self.place()
    }

    // How many bytes an entry has.
    pub(crate) fn width(self) -> usize
        ensures { result ≡ width self }
    {
        match self {
            Section::Kernel | Section::Words | Section::Successors => 2,
            Section::Choices => 4,
        }
    }
}

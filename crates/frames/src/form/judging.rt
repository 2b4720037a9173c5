//! Whether the frames of a table have the form that they should.
ghost use Rattle.std.specs.Prelude.{◌≡◌, ◌<◌, ◌&&◌, []};
ghost use Rattle.frames.specs.Form.{is_token, is_nonterminal, is_symbol, are_symbols, is_word, word_of, between, header_good, rule_good, is_kernel_place, choice_good, entry_good, below, entries_rise, entries_good, section_good, needed, good_at, frame_good, numbers_good, start_good, BadStart, BadFrame};
ghost use Rattle.frames.specs.Formed.{FormLaw, FirstLaw, FrameLaw};
ghost use Rattle.frames.specs.Lowest.{Lowest};
ghost use Rattle.frames.specs.Views.{raw};

use super::Form;
use crate::frames::Frames;
use crate::header::{Header, Section};
use symbols::{END_MARK, Word, nonterminal_index};

/// The most bytes that a frame has.
const MAX_FRAME: usize = 4096;

impl Header {
    fn is_token(self, x: u8) -> bool
        ensures { result ≡ is_token self x }
    {
        (1..=self.t).contains(&x)
    }

    fn is_nonterminal(self, x: u8) -> bool
        ensures { result ≡ is_nonterminal self x }
    {
        nonterminal_index(x).is_some_and(|i| i < self.n as usize)
    }

    fn is_symbol(self, x: u8) -> bool
        ensures { result ≡ is_symbol self x }
    {
        self.is_token(x) || self.is_nonterminal(x)
    }

    // Whether all bytes are symbols.
    fn are_symbols(self, bytes: &[u8]) -> bool
        ensures { result ≡ are_symbols self bytes.now }
    {
        bytes.iter().all(|x| self.is_symbol(*x))
    }

    fn is_word(self, word: Word) -> bool
        ensures { result ≡ is_word self.k self (word_of word.first word.second) }
    {
        let Word { first, second } = word;
        if second == 0 {
            first == END_MARK || (self.k == 1 && self.is_token(first))
        } else {
            1 < self.k
                && self.is_token(first)
                && (second == END_MARK || (self.k == 2 && self.is_token(second)))
        }
    }

    fn is_choice(self, left: u8, word: Word, rule: u8) -> bool
        ensures { result ≡ choice_good self left word.first word.second rule }
    {
        self.is_nonterminal(left) && self.is_word(word) && rule < self.p
    }

    // Whether the numbers of nonterminals, rules and states lie in their ranges.
    fn is_small(self) -> bool
        ensures { result ≡ (between 1 24 self.n && (between 1 60 self.p && between 1 200 self.s)) }
    {
        (1..=24).contains(&self.n) && (1..=60).contains(&self.p) && (1..=200).contains(&self.s)
    }

    // Whether each number lies in its range.
    fn is_within(self) -> bool
        ensures { result ≡ (between 1 2 self.k && (between 1 20 self.t && (between 1 24 self.n && (between 1 60 self.p && between 1 200 self.s)))) }
    {
        (1..=2).contains(&self.k) && (1..=20).contains(&self.t) && self.is_small()
    }

    // Whether a frame is a good first one, which has these numbers.
    fn is_good(self, frame: &[u8]) -> bool
        ensures { result ≡ header_good self frame.now }
    {
        matches!(frame, [1, _, _, _, _, _]) && self.is_within()
    }

    // Whether a frame is that of a rule.
    fn is_rule(self, frame: &[u8]) -> bool
        ensures { result ≡ rule_good self frame.now }
    {
        match frame {
            [2, left, right @ ..] => {
                right.len() <= 6 && self.is_nonterminal(*left) && self.are_symbols(right)
            }
            _ => false,
        }
    }
}

impl<'a> Form<'a> {
    fn new(frames: Frames<'a>) -> Form<'a>
        ensures { raw result.frames ≡ raw frames.entry }
    {
        Form {
            frames,
            header: frames.header(),
        }
    }

    // How many frames a table has.
    fn frames_needed(&self) -> u16
        ensures needed { result ≡ needed (raw self.now.frames) }
        ensures small { result < 2000 }
    {
        1 + self.header.p as u16 + 4 * self.header.s as u16
    }

    // Whether a rule with a dot is a kernel place.
    fn is_place(&self, rule: u8, dot: u8) -> bool
        ensures { result ≡ is_kernel_place (raw self.now.frames) rule dot }
    {
        let rules = self.header.p;
        rule <= rules && (dot as usize) < self.frames.right_among(rules, rule).len()
    }

    // Whether bytes are an entry of a section.
    fn is_entry(&self, section: Section, entry: &[u8]) -> bool
        ensures { result ≡ entry_good (raw self.now.frames) section entry.now }
    {
        match (section, entry) {
            (Section::Kernel, &[rule, dot]) => self.is_place(rule, dot),
            (Section::Words, &[first, second]) => self.header.is_word(Word { first, second }),
            (Section::Successors, &[symbol, state]) => {
                self.header.is_symbol(symbol) && state < self.header.s
            }
            (Section::Choices, &[left, first, second, rule]) => {
                self.header.is_choice(left, Word { first, second }, rule)
            }
            _ => false,
        }
    }

    // Whether bytes are an entry of a section that stands behind another.
    #[tactic(auto, using(crate::proofs::Orders::below_is))]
    fn follows(&self, section: Section, last: &[u8], entry: &[u8]) -> bool
        ensures { result ≡ (below last.now entry.now && entry_good (raw self.now.frames) section entry.now) }
    {
        // By `cmp`: the partial order that `<` takes needs longer for each byte.
        last.cmp(&entry).is_lt() && self.is_entry(section, entry)
    }

    // Whether the entries of a section are good and rise.
    fn entries_rise(&self, section: Section, entries: &[u8]) -> bool
        ensures { result ≡ entries_rise (raw self.now.frames) section [] entries.now }
    {
        let width = section.width();
        let mut last: &[u8] = &[];
        for entry in entries.chunks_exact(width) {
            if !self.follows(section, last, entry) {
                return false;
            }
            last = entry;
        }
        entries.len() % width == 0
    }

    // Whether the entries of a section are as they should be.
    fn entries_good(&self, section: Section, entries: &[u8]) -> bool
        ensures { result ≡ entries_good (raw self.now.frames) section entries.now }
    {
        let some_wanted = matches!(section, Section::Kernel | Section::Words);
        !(some_wanted && entries.is_empty()) && self.entries_rise(section, entries)
    }

    // Whether a frame is that of a section.
    fn is_section(&self, section: Section, frame: &[u8]) -> bool
        ensures { result ≡ section_good (raw self.now.frames) section frame.now }
    {
        match frame {
            [tag, entries @ ..] => {
                frame.len() <= MAX_FRAME
                    && *tag == section.tag()
                    && self.entries_good(section, entries)
            }
            [] => false,
        }
    }

    // Whether a frame is what stands at its place.
    fn is_good_at(&self, i: u16) -> bool
        ensures { result ≡ good_at (raw self.now.frames) i }
    {
        let frame = self.frames.frame(i);
        let rules = self.header.p as u16;
        if i == 0 {
            self.header.is_good(frame)
        } else if i <= rules {
            self.header.is_rule(frame)
        } else {
            self.is_section(Section::at(i - (1 + rules)), frame)
        }
    }

    // Whether a frame is there and good, or none that a table has and not there.
    fn is_frame_good(&self, i: u16) -> bool
        ensures { result ≡ frame_good (raw self.now.frames) i }
    {
        if i < self.frames_needed() {
            (i as usize) < self.frames.frames && self.is_good_at(i)
        } else {
            self.frames.frames <= i as usize
        }
    }

    // The first frame that is not as it should be: if not up to the one behind the last, there is none.
    fn bad_frame(&self) -> Option<u16>
        ensures { Lowest (BadFrame (raw self.now.frames)) result }
    {
        (0..self.frames_needed() + 1).find(|i| !self.is_frame_good(*i))
    }
}

impl<'a> Frames<'a> {
    /// Whether the number of frames and that of bytes stay within the memories.
    pub fn numbers_good(self) -> bool
        ensures { result ≡ numbers_good (raw self.entry) }
    {
        self.frames <= self.starts.len() && self.bytes <= self.store.len()
    }

    // Whether a frame begins where it may.
    fn is_start_good(self, i: usize) -> bool
        ensures { result ≡ start_good (raw self.entry) i }
    {
        let start = self.start_at(i);
        let rises = if i == 0 {
            start == 0
        } else {
            self.start_at(i - 1) < start
        };
        start < self.bytes && rises
    }

    /// The first frame that does not begin where it may.
    pub fn bad_start(self) -> Option<usize>
        ensures { Lowest (BadStart (raw self.entry)) result }
    {
        (0..self.frames).find(|i| !self.is_start_good(*i))
    }

    /// The first frame that is not as it should be, missing or one too many.
    pub fn bad_frame(self) -> Option<usize>
        ensures { Lowest (BadFrame (raw self.entry)) result }
    {
        Form::new(self).bad_frame().map(usize::from)
    }
}

/// What it is for the frames of a file to have their form, in words. It does nothing; its contract is the law.
pub fn form_stands()
    ensures { FormLaw × FirstLaw × FrameLaw }
{}

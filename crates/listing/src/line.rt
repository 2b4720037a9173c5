//! A line of a listing.
ghost use Rattle.std.specs.Prelude.{◌≡◌, Some};
ghost use Rattle.std.specs.Fmt.{WritesOnOk};
ghost use Rattle.sheet.specs.Lexemes.{kind_of, text_of};
ghost use Rattle.sheet.specs.Scanners.{spot_of};
ghost use Rattle.listing.specs.Lines.{kind_name, has_text, tail_text, line_text, spot_line, line_of, last};

use crate::escape::Escaped;
use byte_classes::{Keyword, Mark};
use refusal::Numbered;
use sheet::{Lexeme, PlacedLexeme, ScanFault};
use source::{Entry, Faulted, Place, TooLong};
use std::fmt;

/// What a line tells of: a token, or why the listing ends.
#[derive(Clone, Copy)]
pub enum Line<'a> {
    Token(PlacedLexeme<'a>),
    End(Place),
    Fault(Faulted<ScanFault>),
    TooLong(TooLong),
}

impl<'a> Line<'a> {
    /// Whether no line follows.
    pub(crate) fn is_last(self) -> bool
        ensures { result ≡ last self.entry }
    {
        !matches!(self, Line::Token(_))
    }
}

impl<'a> From<Result<Entry<PlacedLexeme<'a>>, Faulted<ScanFault>>> for Line<'a> {
    ghost from_gives = { λ answer line. line ≡ line_of answer };

    fn from(answer: Result<Entry<PlacedLexeme<'a>>, Faulted<ScanFault>>) -> Line<'a> {
        match answer {
            Ok(Entry::Given(lexeme)) => Line::Token(lexeme),
            Ok(Entry::End(place)) => Line::End(place),
            Err(faulted) => Line::Fault(faulted),
        }
    }
}

fn name_of(lexeme: Lexeme) -> &'static str
    ensures { result.now ≡ kind_name (kind_of lexeme.entry) }
{
    match lexeme {
        Lexeme::Number(_) => "number",
        Lexeme::Word(_) => "word",
        Lexeme::Name(_) => "name",
        Lexeme::Mark(Mark::Colon, _) => "colon",
        Lexeme::Mark(Mark::Equals, _) => "equals",
        Lexeme::Mark(Mark::Comma, _) => "comma",
        Lexeme::Mark(Mark::Semicolon, _) => "semicolon",
        Lexeme::Mark(Mark::Minus, _) => "minus",
        Lexeme::Keyword(Keyword::Zone, _) => "zone",
        Lexeme::Keyword(Keyword::Curve, _) => "curve",
        Lexeme::Keyword(Keyword::Set, _) => "set",
        Lexeme::Keyword(Keyword::From, _) => "from",
        Lexeme::Keyword(Keyword::To, _) => "to",
        Lexeme::Keyword(Keyword::Off, _) => "off",
        Lexeme::LineEnd(_) => "line-end",
        Lexeme::Comment(_) => "comment",
    }
}

/// Whether it is listed with its text: for the others, the kind says it all.
fn shows_text(lexeme: Lexeme) -> bool
    ensures { result ≡ has_text (kind_of lexeme.entry) }
{
    !matches!(
        lexeme,
        Lexeme::Mark(_, _) | Lexeme::Keyword(_, _) | Lexeme::LineEnd(_)
    )
}

/// A lexeme's text behind a blank, or nothing.
#[derive(Clone, Copy)]
struct Tail<'a> {
    lexeme: Lexeme<'a>,
}

impl<'a> fmt::Display for Tail<'a> {
    ghost output = { λ tail. Some (tail_text (kind_of tail.lexeme) (text_of tail.lexeme)) };

    fn fmt<W: fmt::Write>(&self, f: &mut fmt::Formatter<W>) -> fmt::Result {
        if shows_text(self.lexeme) {
            let bytes = self.lexeme.text();
            write!(f, " {}", Escaped { bytes })
        } else {
            Ok(())
        }
    }
}

fn write_token<W: fmt::Write>(placed: PlacedLexeme, f: &mut fmt::Formatter<W>) -> fmt::Result
    ensures { WritesOnOk W.Write.write_str_gives f.old result (spot_line (spot_of placed.entry)) f.new }
{
    let PlacedLexeme { lexeme, place } = placed;
    let kind = lexeme.kind();
    let name = name_of(lexeme);
    let tail = Tail { lexeme };
    write!(f, "{place} {kind} {name}{tail}")
}

impl<'a> fmt::Display for Line<'a> {
    ghost output = { λ line. Some (line_text line) };

    fn fmt<W: fmt::Write>(&self, f: &mut fmt::Formatter<W>) -> fmt::Result {
        match *self {
            Line::Token(placed) => write_token(placed, f),
            Line::End(place) => write!(f, "end {place}"),
            // two refusals of one shape: a place stands behind the number of one, a length behind that of the other
            Line::Fault(Faulted { fault, place }) => {
                let number = fault.number();
                write!(f, "refused {number} {place}: {fault}")
            }
            Line::TooLong(refusal) => {
                let number = refusal.number();
                let length = refusal.length;
                write!(f, "refused {number} {length}: {refusal}")
            }
        }
    }
}

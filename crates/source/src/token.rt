//! Tokens, their places, and what a source hands out.

/// A place in what a source reads: one number, or a line and a column. All count from 1.
#[derive(Clone, Copy, PartialEq, Eq, Debug)]
pub enum Place {
    One(u32),
    Two(u32, u32),
}

/// A token: its kind, any byte, and where it stands.
// The kind is a number, as table files have it: a stored list may hold any.
#[derive(Clone, Copy, PartialEq, Eq, Debug)]
pub struct Token {
    pub kind: u8,
    pub place: Place,
}

/// What is handed out where there is no fault to report: something, or the end and its place.
// No `Result`: the end is no error, and stands inside the `Result` of a source.
#[derive(Clone, Copy, PartialEq, Eq, Debug)]
pub enum Entry<T> {
    Given(T),
    End(Place),
}

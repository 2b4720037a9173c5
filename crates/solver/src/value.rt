//! What the equations are solved in.
ghost use Rattle.std.specs.Prelude.{◌≡◌, ℕ, Decides};
ghost use Rattle.grammar.specs.Equations.{Kind};
ghost use Rattle.solver.specs.Laws.{Laws};

/// A kind of value. Its ghost members say what the operations are, which laws they have, and how high a value is: a join
/// that changes a value raises it, and none is higher than `CHAIN`, so that no value changes more often than that. `==`
/// holds just of equal values.
pub trait Value: Copy + PartialEq {
    ghost kind: { Kind Self };

    ghost height: { Self → ℕ };

    ghost CHAIN: { ℕ };

    ghost laws: { Laws kind height CHAIN };

    /// No chain of rising values is longer.
    const CHAIN: usize;

    /// The value of no string at all.
    fn bottom() -> Self
        ensures { result ≡ kind.bottom };

    /// The value of the empty string.
    fn unit() -> Self
        ensures { result ≡ kind.unit };

    /// The value of a token; a number of no token has what the kind gives it.
    fn of_token(token: u8) -> Self
        ensures { result ≡ kind.token token };

    /// What has the strings of both.
    fn join(self, other: Self) -> Self
        ensures { result ≡ kind.join self other };

    /// What has the strings of one followed by those of the other.
    fn times(self, other: Self) -> Self
        ensures { result ≡ kind.product self other };

    ghost equals: { (x y : Self) → Decides (Self.PartialEq.eq x y) (x ≡ y) };
}

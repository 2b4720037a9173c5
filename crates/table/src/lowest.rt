//! The lowest number that fails a test, and the refusal of what is found.
ghost use Rattle.std.specs.Prelude.{ℕ, ◌<◌};
ghost use Rattle.std.specs.Option.{ForSome};
ghost use Rattle.table.specs.Lowest.{LowestFailing, Refuses};

use crate::refused::CheckRefusal;

/// The lowest of the first n numbers that fails a test.
pub fn lowest<F: Fn(u8) -> bool>(n: u8, passes: F) -> Option<u8>
    requires { (k : ℕ) → k < n → F.pre passes k }
    ensures { LowestFailing n (F.post passes) result }
{
    // `find` over the numbers would ask that the test can be made at any number
    for k in 0..n {
        if !passes(k) {
            return Some(k);
        }
    }
    None
}

/// Ok where nothing is found, or else the refusal of what is.
pub fn refuse<N, F: FnOnce(N) -> CheckRefusal>(
    found: Option<N>,
    cause: F,
) -> Result<(), CheckRefusal>
    requires { ForSome found (F.pre cause) }
    ensures { Refuses found (F.post cause) result }
{
    match found {
        None => Ok(()),
        Some(n) => Err(cause(n)),
    }
}

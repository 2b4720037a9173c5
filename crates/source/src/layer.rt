//! Layers: sources that stand over any source, other layers included.
ghost use Rattle.std.specs.Prelude.{◌≡◌};
ghost use Rattle.source.specs.Layers.{skip_of, quota_of, skipped, allowed, used, SkipLaw, QuotaLaw};
ghost use Rattle.source.specs.Meaning.{faults};
ghost use Rattle.source.specs.Short.{skipped_short, quota_short};

use crate::fault::{Faulted, LayerFault};
use crate::source::Source;
use crate::token::{Entry, Place, Token};

/// The source below without the tokens of one kind. A plain value stands beside the source, as in every layer.
#[derive(Drop)]
pub struct Skip<S> {
    source: S,
    kind: u8,
}

impl<S: Source> Skip<S> {
    /// Skips the tokens of this kind from now on.
    pub fn new(source: S, kind: u8) -> Self
        ensures { skip_of S.Source.meaning result ≡ skipped kind (S.Source.meaning source) }
    {
        Skip { source, kind }
    }
}

impl<S: Source> Source for Skip<S> {
    type Fault = LayerFault<S::Fault>;

    ghost meaning = { skip_of S.Source.meaning };

    ghost short = { λ s. skipped_short s.kind (S.Source.meaning s.source) (S.Source.short s.source) };

    #[inline(always)]
    fn next(&mut self) -> Result<Entry<Token>, Faulted<LayerFault<S::Fault>>> {
        'skipped: loop {
            match self.source.next()? {
                Entry::Given(token) if token.kind == self.kind => {}
                entry => return Ok(entry),
            }
        }
    }
}

/// The source below as far as a number of tokens, and then a fault. Plain values stand beside the source, as in every layer.
#[derive(Drop)]
pub struct Quota<S> {
    source: S,
    left: u32,
    /// The place of the token that was one too many: below, it is gone.
    over: Option<Place>,
}

impl<S: Source> Quota<S> {
    /// Lets this many tokens pass from now on.
    pub fn new(source: S, most: u32) -> Self
        ensures { quota_of S.Source.meaning result ≡ allowed most (S.Source.meaning source) }
    {
        Quota {
            source,
            left: most,
            over: None,
        }
    }
}

/// The token at this place was one too many.
fn used_up<F>(place: Place) -> Faulted<LayerFault<F>>
    ensures { faults result ≡ used place }
{
    Faulted {
        fault: LayerFault::QuotaUsed,
        place,
    }
}

impl<S: Source> Source for Quota<S> {
    type Fault = LayerFault<S::Fault>;

    ghost meaning = { quota_of S.Source.meaning };

    ghost short = { λ s. quota_short s.over s.left (S.Source.meaning s.source) (S.Source.short s.source) };

    fn next(&mut self) -> Result<Entry<Token>, Faulted<LayerFault<S::Fault>>> {
        if let Some(place) = self.over {
            return Err(used_up(place));
        }
        match self.source.next()? {
            Entry::Given(token) if self.left == 0 => {
                self.over = Some(token.place);
                Err(used_up(token.place))
            }
            Entry::Given(token) => {
                self.left -= 1;
                Ok(Entry::Given(token))
            }
            end => Ok(end),
        }
    }
}

/// What a skip over a source means, in words: the list below without the tokens of this kind, the others in their order,
/// and the last entry below. It does nothing; its contract is the law.
#[tactic(auto, using(crate::proofs::Skips::skip_law))]
pub fn skip_law<S: Source>(source: &S, kind: u8)
    ensures { SkipLaw kind (S.Source.meaning source.now) (skipped kind (S.Source.meaning source.now)) }
{}

/// What a quota over a source means, in words: the list below if it has at most so many tokens; otherwise the first of
/// them, and then the fault at the place of the next. It does nothing; its contract is the law.
#[tactic(auto, using(crate::proofs::Quotas::quota_law))]
pub fn quota_law<S: Source>(source: &S, most: u32)
    ensures { QuotaLaw most (S.Source.meaning source.now) (allowed most (S.Source.meaning source.now)) }
{}

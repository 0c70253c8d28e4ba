// Hours as a word says them: one, or from one to another.
ghost use Rattle.std.specs.Prelude.{◌≡◌, ℕ, ◌<◌, ◌||◌};
ghost use Rattle.sets.specs.Hours.{has};
ghost use Rattle.text.specs.Span.{from_to, spanned, lies};

use crate::mistake::Fault;
use crate::number::number;
use crate::piece::split_once;
use sets::hours::Hours;

// From one hour to another, with both.
#[derive(Clone, Copy)]
pub struct Span {
    pub from: usize,
    pub to: usize,
}

// The ends of a span, each a number or not.
fn ends(word: &[u8]) -> (Option<u32>, Option<u32>)
    ensures { (n : ℕ) → spanned n word.now ≡ from_to n result.0 result.1 }
{
    let (from, to) = split_once(word, b'-').unwrap_or((word, word));
    (number(from), number(to))
}

// The hours of a word, `5` or `0-4`, all below `hours`; or what is wrong with it.
pub fn read_span(word: &[u8], hours: usize) -> Result<Span, Fault>
    ensures { result ≡ spanned hours word.now }
{
    let (Some(from), Some(to)) = ends(word) else {
        return Err(Fault::NotHour);
    };
    let (from, to) = (from as usize, to as usize);
    if to < from {
        return Err(Fault::Backward);
    }
    if to >= hours {
        return Err(Fault::Late(hours));
    }
    Ok(Span { from, to })
}

// A set of hours, with those of a span.
pub fn with_span(set: Hours, span: Span) -> Hours
    requires { span.to < 128 }
    ensures { (k : ℕ) → has result k ≡ (has set k || lies span k) }
{
    let upto = Hours::below(span.to + 1);
    set.union(upto.minus(Hours::below(span.from)))
}

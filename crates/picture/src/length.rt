// How long a bar is.
ghost use Rattle.picture.specs.Bars.{Largest};
ghost use Rattle.picture.specs.Length.{Bar};

use fraction::Fraction;

// The length of the bar of a load, where the largest load has a bar of length `full`: in proportion, rounded up, so that
// only no load has no bar.
pub fn bar(load: Fraction, most: Fraction, full: usize) -> usize
    ensures { Bar full load.num load.den most.num most.den result }
{
    let part = load.num() as u128 * most.den() as u128;
    let all = most.num() as u128 * load.den() as u128;
    if all == 0 {
        return 0;
    }
    let long = (part * full as u128 + (all - 1)) / all;
    long.min(full as u128) as usize
}

// The largest of some loads; 0, where there is none.
pub fn largest(loads: &[Fraction]) -> Fraction
    ensures { Largest loads.now result.num result.den }
{
    loads.iter().copied().max().unwrap_or(Fraction::zero())
}

// A plan in its frame: where the bars of its hours stand, and how high they are.
ghost use Rattle.std.specs.Prelude.{◌≡◌, ◌+◌, ◌*◌, ◌<◌, ◌≤◌, length};
ghost use Rattle.night.specs.Night.{hours_of, tasks_of};
ghost use Rattle.picture.specs.Bars.{Largest};
ghost use Rattle.picture.specs.Length.{bar_length};

use crate::drawn::Drawn;
use crate::frame::{Area, Frame, HIGH};
use crate::length::{bar, largest};
use fraction::Fraction;

// The highest bar is that of the largest load, `most`.
#[derive(Clone, Copy)]
pub struct Chart<'a> {
    pub drawn: Drawn<'a>,
    pub frame: Frame,
    pub most: Fraction,
}

impl<'a> Chart<'a> {
    pub fn new(drawn: Drawn<'a>) -> Chart<'a>
        ensures same { result.drawn ≡ drawn.entry }
        ensures hours { result.frame.hours ≡ hours_of drawn.entry.night.now }
        ensures tasks { result.frame.tasks ≡ length (tasks_of drawn.entry.night.now) }
        ensures largest { Largest drawn.entry.loads.now result.most.num result.most.den }
    {
        Chart {
            drawn,
            frame: Frame::new(drawn.night.hours(), drawn.night.tasks().len()),
            most: largest(drawn.loads),
        }
    }

    // How high the bar of a load is.
    pub fn high(self, load: Fraction) -> usize
        ensures value { result ≡ bar_length 260 load.num load.den self.entry.most.num self.entry.most.den }
        ensures within { result ≤ 260 }
    {
        bar(load, self.most, HIGH)
    }

    // The bar of hour s, which bears this load.
    pub fn bar_area(self, s: usize, load: Fraction) -> Area
        requires { s < 96 }
        ensures place { (result.x ≡ 201 + s * self.entry.frame.column) × (result.wide + 2 ≡ self.entry.frame.column) × (result.y + result.high ≡ 400) }
        ensures high { result.high ≡ bar_length 260 load.num load.den self.entry.most.num self.entry.most.den }
    {
        self.frame.bar_area(s, self.high(load))
    }
}

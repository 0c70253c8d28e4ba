// Random numbers from a seed (splitmix64): the same ones on every machine.
ghost use Rattle.std.specs.Prelude.{◌≡◌, ◌<◌, ◌≤◌};
ghost use Rattle.std.specs.Range.{range_inclusive_start, range_inclusive_end};

use std::ops::RangeInclusive;

#[derive(Drop)]
pub struct Draw {
    state: u64,
}

impl Draw {
    pub fn new(seed: u64) -> Draw
        ensures { result.state ≡ seed }
    {
        Draw { state: seed }
    }

    // Any number of 64 bits.
    pub fn word(&mut self) -> u64 {
        let a = self.state.wrapping_add(0x9e37_79b9_7f4a_7c15);
        self.state = a;
        let b = (a ^ (a >> 30)).wrapping_mul(0xbf58_476d_1ce4_e5b9);
        let c = (b ^ (b >> 27)).wrapping_mul(0x94d0_49bb_1331_11eb);
        c ^ (c >> 31)
    }

    // A number below n; 0 where n is 0.
    pub fn below(&mut self, n: u64) -> u64
        ensures { 0 < n → result < n }
    {
        if n == 0 {
            return 0;
        }
        self.word() % n
    }

    // An index below n; 0 where n is 0.
    pub fn index(&mut self, n: usize) -> usize
        ensures { 0 < n → result < n }
    {
        self.below(n as u64) as usize
    }

    // A number of the range; its start where the range is empty.
    pub fn between(&mut self, range: &RangeInclusive<u64>) -> u64
        ensures low { range_inclusive_start range.now ≤ result }
        ensures high { range_inclusive_start range.now ≤ range_inclusive_end range.now → result ≤ range_inclusive_end range.now }
    {
        let low = *range.start();
        let high = *range.end();
        low.saturating_add(self.below(high.saturating_sub(low).saturating_add(1)))
    }
}

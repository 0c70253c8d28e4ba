// Exact sums of fractions over any denominators up to 255.

// A number below 2^2048, enough for the product of 1 to 255: digits of 32 bits, the lowest first.
#[derive(Clone, Copy, PartialEq)]
struct Big {
    digits: [u32; 64],
}

// A number of one digit.
impl From<u32> for Big {
    fn from(n: u32) -> Big {
        let mut digits = [0; 64];
        digits[0] = n;
        Big { digits }
    }
}

impl Big {
    // Multiplies by a number, then adds so many times another.
    fn times_plus(&mut self, by: u32, other: &Big, times: u32) {
        let mut carry: u64 = 0;
        for (x, y) in self.digits.iter_mut().zip(other.digits.iter()) {
            let mine = u64::from(*x).wrapping_mul(u64::from(by));
            let t = u64::from(*y)
                .wrapping_mul(u64::from(times))
                .wrapping_add(mine)
                .wrapping_add(carry);
            *x = (t & 0xffff_ffff) as u32;
            carry = t >> 32;
        }
    }
}

// Amounts by their denominator: place d has the sum of those over d.
#[derive(Clone, Copy)]
pub struct Amounts {
    sums: [u128; 256],
}

impl Amounts {
    pub const NONE: Amounts = Amounts { sums: [0; 256] };

    // Adds an amount over a denominator; nothing over 0.
    pub fn add(&mut self, amount: u64, over: u8) {
        if over != 0 {
            let x = &mut self.sums[over as usize];
            *x = x.saturating_add(u128::from(amount));
        }
    }

    // Whether the sum of all is num over den: whole units are counted by themselves, what is left is brought over the
    // product of the denominators.
    pub fn are(&self, num: u64, den: u8) -> bool {
        let zero = Big::from(0);
        let mut whole: u128 = 0;
        let mut top = zero;
        let mut bottom = Big::from(1);
        for (d, sum) in self.sums.iter().enumerate() {
            if d == 0 || *sum == 0 {
                continue;
            }
            let over = d as u128;
            whole = whole.saturating_add(*sum / over);
            let by = (d & 255) as u32;
            top.times_plus(by, &bottom, (*sum % over & 255) as u32);
            bottom.times_plus(by, &zero, 0);
        }
        let Some(rest) = u128::from(num).checked_sub(whole.saturating_mul(u128::from(den))) else {
            return false;
        };
        if rest > 0xffff {
            return false;
        }
        top.times_plus(u32::from(den), &zero, 0);
        bottom.times_plus((rest & 0xffff) as u32, &zero, 0);
        top == bottom
    }
}

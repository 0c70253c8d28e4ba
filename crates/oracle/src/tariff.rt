// Prices that rise with the units of an hour: a part of a unit costs that part of its price.
use crate::draw::Draw;

// From this unit on, until the next step, a unit costs so much.
#[derive(Clone, Copy)]
pub struct Step {
    pub from: u64,
    pub price: u64,
}

// Steps that follow one another: the prices rise, or stay.
#[derive(Clone, Copy)]
pub struct Tariff {
    pub steps: [Step; 6],
}

impl Tariff {
    // A random tariff for loads of about so many units.
    pub fn drawn(draw: &mut Draw, units: u64) -> Tariff {
        let mut step = Step {
            from: 0,
            price: draw.below(20),
        };
        let mut steps = [step; 6];
        for x in steps.iter_mut() {
            *x = step;
            step.from = step
                .from
                .saturating_add(1)
                .saturating_add(draw.below(units / 3 + 2));
            step.price = step.price.saturating_add(draw.below(50));
        }
        Tariff { steps }
    }

    // What an hour costs, in parts.
    fn hour(&self, load: u64, parts: u64) -> u128 {
        let mut cost: u128 = 0;
        let mut end = u64::MAX;
        for step in self.steps.iter().rev() {
            let from = step.from.saturating_mul(parts);
            let units = load.min(end).saturating_sub(from);
            cost = cost.saturating_add(u128::from(units) * u128::from(step.price));
            end = from;
        }
        cost
    }

    // What all hours cost.
    pub fn cost(&self, loads: &[u64], parts: u64) -> u128 {
        loads.iter().fold(
            0u128,
            |cost, load| cost.saturating_add(self.hour(*load, parts)),
        )
    }
}

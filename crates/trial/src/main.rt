// Tries the harbour's crates on random nights, beside the proofs: `trial [SEED] [COUNT]`.
#![tactic(auto)]

mod case;
mod changes;
mod fault;
mod flows;
mod mistakes;
mod plans;
mod sheets;
mod tally;
mod trials;

use anyhow::anyhow;
use oracle::draw::Draw;
use oracle::kinds;
use std::env;
use tally::Tally;
use trials::Trial;

// A word as a number, or the default where it is missing.
fn number(word: Option<String>, default: u64) -> anyhow::Result<u64> {
    let Some(text) = word else {
        return Ok(default);
    };
    text.as_str()
        .parse::<u64>()
        .map_err(|_| anyhow!("usage: trial [SEED] [COUNT]"))
}

// Tries night n of the seed, and says which night it is where something differs.
fn try_nth(rt: &HostRuntime, trial: &mut Trial, seed: u64, n: u64) -> anyhow::Result<()> {
    trial.draw = Draw::new(seed.wrapping_mul(0x1_0000_0000).wrapping_add(n));
    let draft = kinds::night(trial.heap, &mut trial.draw, kinds::nth(n))?;
    let tried = trial.try_night(&draft);
    if tried.is_err() {
        println!(rt; "seed {seed} night {n}: {draft}")?;
    }
    tried
}

fn run(rt: &HostRuntime) -> anyhow::Result<()> {
    let mut words = env::args(rt)?;
    let _ = words.next();
    let seed = number(words.next(), 1)?;
    let count = number(words.next(), 2000)?;
    let mut trial = Trial {
        heap: rt.alloc(),
        draw: Draw::new(seed),
        tally: Tally::default(),
    };
    for n in 0..count {
        try_nth(rt, &mut trial, seed, n)?;
    }
    let tally = &trial.tally;
    print!(rt; "{tally}")?;
    mistakes::show(rt)
}

fn main(rt: HostRuntime) -> anyhow::Result<()> {
    run(&rt)
}

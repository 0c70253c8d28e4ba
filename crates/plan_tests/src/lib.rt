// Tests of fractions, nights, flows, levels and sheets, in a crate of their own: a crate with tests is proved once more for them.
#![tactic(auto)]

#[cfg(test)]
mod flows;
#[cfg(test)]
mod fractions;
#[cfg(test)]
mod given;
#[cfg(test)]
mod levels;
#[cfg(test)]
mod nights;
#[cfg(test)]
mod sheets;

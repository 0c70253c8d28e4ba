// Networks with known outcomes.
#![tactic(auto)]

#[cfg(test)]
mod tests;

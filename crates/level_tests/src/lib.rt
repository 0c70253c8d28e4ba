// Nights with known loads.
#![tactic(auto)]

#[cfg(test)]
mod tests;

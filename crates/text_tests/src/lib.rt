// Tests of changes, of printed lines and of nights as text, in a crate of their own: a crate with tests is proved once more for them.
#![tactic(auto)]

#[cfg(test)]
mod changes;
#[cfg(test)]
mod printed;
#[cfg(test)]
mod texts;

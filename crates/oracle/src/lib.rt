// Slow and plain ways to do what the other crates do, and random nights to try both on. They share no code and no contract with those crates:
// what they answer is compared, and no proof cites it. A contract that pinned a slow way would be that way written again, so such functions
// are kept small, and the check proves of them that they are safe and end; the few on which all of them stand have contracts,
// and the steps that find a group say that it is of the tasks and hours that they are given.
#![tactic(auto)]

pub mod bits;
pub mod bound;
pub mod bytes;
pub mod cells;
pub mod damage;
pub mod draft;
pub mod draw;
pub mod edits;
mod exact;
pub mod kinds;
pub mod looks;
pub mod other;
pub mod paper;
pub mod papers;
pub mod slow;
pub mod tariff;

// How much of the tasks fits into the hours: a largest flow, its cut, and the hours that can still reach room.
#![tactic(auto)]

mod cell;
pub mod cut;
mod drain;
pub mod fill;
mod filling;
mod layer;
pub mod net;
mod order;
mod pack;
mod path;
mod settle;

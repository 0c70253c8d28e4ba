// Changes of a night before it begins.
#![tactic(auto)]

mod draft;
pub mod evening;
pub mod kinds;
pub mod refusal;
pub mod row;

// Refusals as functions, by balances lent as slices: of a record, and of an opening.
#![tactic(auto)]

pub mod record; // record.rt: 22, 51, 23 to 25
pub mod opening; // opening.rt: 1, 2 and 52, or the supply

pub use opening::{home_opening, pair_opening};
pub use record::{first_refusals, funds_refusal};

// Tests, sums and lists over the places of a table, balances from a place on, and the laws of both: what the crates of both validators
// cite. Its functions stand in its modules.
#![tactic(auto)]

pub mod amounts; // amounts.rt: what a record of a kind takes and gives
pub mod balances; // balances.rt: how many accounts a ledger may have, balances that no account has, and balances copied
pub mod number_index; // number_index.rt: the chain of a number, and a place as an index keeps it
pub mod exact_sums; // exact_sums.rt: sums that may pass 64 bits
pub mod balance_sums; // balance_sums.rt: balances added up

pub use amounts::{charge_by, given_by, is_receiving, payee_by, taken_by};
pub use balance_sums::add_balances;
pub use balances::{are_zero, copy_numbers, is_count_allowed};
pub use exact_sums::{Flows, HALF, Halved, Wide};
pub use number_index::{CHAINS, low_bits, next_place};

// What each call does on a card known to be sound, once it is read, whole in one place: a module for each heading of document 01.
// (Tick, lost and confirmation are methods of the card; `confirm` asks the rows that stand before it.)
// A call with a response is lent the buffer for it, and its promise holds for a buffer of any size: that it has 256 bytes is a row of the
// table that stands before the reading, and the door asks it. A call that can issue no number answers `silently`, without a step.
// Each step leaves by let-else at its own rows (document 01, 'Forms by place in the code'), so the first rows stand in each.
#![tactic(auto)]

mod change;
mod confirmation;
mod creation;
mod deletion;
mod fall_back;
mod loading;
mod policy;
mod reports;

pub use change::{disable, enable};
pub use confirmation::confirm;
pub use creation::create;
pub use deletion::{delete, master_delete};
pub use fall_back::set_fall_back;
pub use loading::{finished, keyed, stored};
pub use policy::set_policy;
pub use reports::{get_data, status_of_all, status_of_one};

// What the program says: the line of an answer, and the answer for a person.
// Every function answers for every record and every buffer: what does not fit is dropped, as a `Writer` does.
#![tactic(auto)]

mod explained;
mod line;

pub use explained::write_explained;
pub use line::write_answer;

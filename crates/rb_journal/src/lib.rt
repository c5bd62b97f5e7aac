//! The text of a journal: a script whose parts, a setup and then turns, end by their digest and a line `# ---`, which
//! TOML takes for comments. So `plan` reads a journal, and one that was cut short or damaged tells which parts are whole.
//! One that was begun anew has a state before its setup, from which a follower goes on.
#![tactic(auto)]

mod damage;
mod depth;
mod entry;
pub mod laws;
mod parts;
mod state;
mod stored;
mod verbatim;
mod words;
mod written;

pub use damage::damage_in;
pub use entry::{document_text, entry_text, opening_text};
pub use parts::{is_opening, split_part, state_in, state_part};
pub use state::{State, read_state, state_text};
pub use stored::{StoredDocuments, input_of, stored_in};

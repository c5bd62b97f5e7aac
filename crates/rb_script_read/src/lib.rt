//! A script from its bytes: its configuration (`rb_script_config`) and its turns with their windows, goals, events
//! and settlements, or its first fault; a turn from the bytes of a document of its own (`read_turn_document`); and
//! how large the light stores of a script can be (`stores_of`), and whether its turns ask for too much (`check_work`).
#![tactic(auto)]

mod document;
mod event;
mod front;
pub mod laws;
mod names;
mod packet;
mod plain;
mod ready;
mod script;
mod set;
mod turn;
mod turn_names;
mod work;

pub use document::read_turn_document;
pub use names::{Naming, SetNames};
pub use script::{read_script, read_script_by};
pub use turn::{NextTurn, Reading, ReadingChange};
pub use work::{StoreSize, check_work, stores_of};

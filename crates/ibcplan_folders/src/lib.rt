//! The folders that the program reads and writes: the answers of nodes, of which a script, the next requests or client
//! messages are made, and the files of those messages.
#![tactic(auto)]

mod answer_folders;
mod file_system;
mod importing;
mod left_out;
mod memory_folders;
mod messaging;
mod packets;
mod reading;
mod wanting;

pub use answer_folders::{AnswerFolders, HostFolders};
pub use file_system::FileSystem;
pub use importing::{ImportedText, MadeScript, imported, made};
pub use memory_folders::{MemoryFile, MemoryFolders};
pub use messaging::{files_of, lines_of, read_answers, write_files};
pub use packets::{PacketTexts, packet_texts};
pub use wanting::{WantedText, wanted};

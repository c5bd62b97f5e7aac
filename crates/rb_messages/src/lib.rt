//! Messages with updates of light clients, as a relayer sends them (ibc-go's MsgUpdateClient), what a script's last turn sends, and the
//! transactions of them, ready to sign.
#![tactic(auto)]

mod batch;
mod client_message;
mod commit;
mod error;
mod header;
pub mod laws;
mod message;
mod planned;
mod shell;
mod source;
mod text;
mod transaction_text;
mod transactions;
mod update;
mod update_text;
mod validators;
mod votes;

pub use batch::{PlannedBatch, planned_batches};
pub use error::MessageError;
pub use message::{MessageFile, message_files};
pub use planned::planned_updates;
pub use shell::{shell_of, transactions_shell_of};
pub use source::{id_of, seen_chains};
pub use transactions::{TransactionFile, sender_to, transaction_files};
pub use update::{PlannedUpdate, file_name};

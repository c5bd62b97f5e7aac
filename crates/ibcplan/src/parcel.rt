//! What is written of what a turn sends.
use rb_messages::{MessageFile, TransactionFile};

/// The files of the messages of updates, and those of transactions.
#[derive(Drop)]
pub struct Parcel {
    pub messages: Vec<MessageFile>,
    pub transactions: Vec<TransactionFile>,
}

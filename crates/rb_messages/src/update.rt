//! An update that is sent.
ghost use Rattle.std.specs.Prelude.{◌≡◌, IfOk, string_bytes};
ghost use Rattle.rb_messages.specs.Names.{file_name};

use rb_base::{ClientId, Height};
use rb_book::Record;
use rb_step::SentVotes;
use std::alloc::{AllocError, Global};

/// An update that is sent: of which client, on which host and to which chain, by their places; in which transaction of the
/// client, from 1; the heights, and the consensus states that the relayer has of them; and where the client sends only
/// the votes that the update needs, these.
#[derive(Drop)]
pub struct PlannedUpdate {
    pub client: ClientId,
    pub host: usize,
    pub chain: usize,
    pub transaction: usize,
    pub height: Height,
    pub trusted: Height,
    pub own_record: Option<Record>,
    pub trusted_record: Option<Record>,
    pub votes: Option<SentVotes>,
}

/// The name of the file of an update, by its place among those that are sent.
pub fn file_name(alloc: Global, place: usize, update: &PlannedUpdate) -> Result<String, AllocError>
    ensures { IfOk result (λ name. string_bytes name ≡ file_name place update.now) }
{
    let number = place as u128 + 1;
    let trusted = update.trusted;
    let height = update.height;
    let mut name = String::new(alloc);
    write!(name, "{number}-{trusted}-{height}.json")?;
    Ok(name)
}

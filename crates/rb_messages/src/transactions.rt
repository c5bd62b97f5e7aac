//! The transactions of batches, which aren't signed.
ghost use Rattle.std.specs.Prelude.{◌≡◌, ◌++◌, ◌<◌, IfOk, OnOk, drop, length, map, option_map, string_bytes, take};
ghost use Rattle.std.specs.List.{enumerate_from, flat_map};
ghost use Rattle.std.specs.Option.{option_copied};
ghost use Rattle.rb_import_setup.specs.Senders.{sender_view};
ghost use Rattle.rb_messages.specs.Transactions.{file_in, file_view, files_from, line_of, messages_in, messages_of, packets_at, sender_at, text_of, update_text};

use crate::batch::PlannedBatch;
use crate::message::MessageFile;
use crate::source::id_of;
use crate::transaction_text::{Fee, transaction_text};
use crate::update_text::update_message_text;
use rb_base::ChainId;
use rb_batch::Transaction;
use rb_import_setup::{Sender, fee_amount, gas_limit};
use rb_want_requests::own_id;
use std::alloc::{AllocError, Global};

/// The file of a transaction: the place of its batch, its number in this, from 1, how many messages it has, and the
/// file's name and text.
#[derive(Drop)]
pub struct TransactionFile {
    pub batch: usize,
    pub number: usize,
    pub messages: usize,
    pub name: String,
    pub text: String,
}

/// What the transactions of a batch are made of: its place, its host and who sends there, the files of its updates, and the
/// texts of its packet messages, none of one that is left out.
#[derive(Clone, Copy)]
struct Parts<'a> {
    place: usize,
    batch: &'a PlannedBatch,
    host: &'a str,
    sender: &'a Sender,
    updates: &'a [MessageFile],
    packets: &'a [Option<String>],
}

/// The transactions of batches, in their order, but for batches of hosts to which nobody sends, and for transactions all
/// of whose messages are left out: of the files of all updates, and of the texts of each batch's packet messages.
pub fn transaction_files(
    alloc: Global,
    chains: &[ChainId],
    senders: &[Option<Sender>],
    batches: &[PlannedBatch],
    updates: &[MessageFile],
    packets: &[Vec<Option<String>>],
) -> Result<Vec<TransactionFile>, AllocError>
    ensures { IfOk result (λ files. map file_view files.items ≡ files_from chains.now senders.now packets.now 0 batches.now updates.now) }
{
    let mut files = Vec::new(alloc);
    let mut rest = updates;
    for (place, batch) in batches.iter().enumerate() {
        let (own, behind) = rest.split_at(batch.updates.min(rest.len()));
        rest = behind;
        if let Some(sender) = sender_to(senders, batch.host) {
            let parts = Parts {
                place,
                batch,
                host: id_of(chains, batch.host),
                sender,
                updates: own,
                packets: texts_at(packets, place),
            };
            add_files(alloc, &mut files, &parts)?;
        }
    }
    Ok(files)
}

/// Who sends transactions to the host at a place, if somebody does.
pub fn sender_to(senders: &[Option<Sender>], host: usize) -> Option<&Sender>
    ensures { option_copied result ≡ sender_at senders.entry.now host }
{
    senders.get(host)?.as_ref()
}

/// The texts of the packet messages of the batch at a place.
fn texts_at(packets: &[Vec<Option<String>>], place: usize) -> &[Option<String>]
    ensures { result.now ≡ packets_at packets.entry.now place }
{
    match packets.get(place) {
        Some(texts) => texts.as_slice(),
        None => &[],
    }
}

/// Adds the transactions of a batch.
fn add_files(
    alloc: Global,
    files: &mut Vec<TransactionFile>,
    parts: &Parts<'_>,
) -> Result<(), AllocError>
    ensures { OnOk result (map file_view files.new.items ≡ map file_view files.old.items ++ flat_map (file_in parts.now.place (sender_view parts.now.sender.now) (messages_of parts.now.host.now parts.now.batch.now.client (sender_view parts.now.sender.now) parts.now.updates.now parts.now.packets.now)) (enumerate_from 0 parts.now.batch.now.transactions.items)) }
{
    let messages = messages_of(alloc, parts)?;
    let messages = messages.as_slice();
    for (before, transaction) in parts.batch.transactions.iter().enumerate() {
        add_file(alloc, files, parts, before, transaction, messages)?;
    }
    Ok(())
}

/// The messages of a batch, the updates first, none of one that is left out.
fn messages_of(alloc: Global, parts: &Parts<'_>) -> Result<Vec<Option<String>>, AllocError>
    ensures { IfOk result (λ messages. map (option_map string_bytes) messages.items ≡ messages_of parts.now.host.now parts.now.batch.now.client (sender_view parts.now.sender.now) parts.now.updates.now parts.now.packets.now) }
{
    let mut messages = Vec::new(alloc);
    for update in parts.updates {
        messages.push(Some(update_text(alloc, parts, update)?))?;
    }
    for packet in parts.packets {
        messages.push(copy_of(alloc, packet)?)?;
    }
    Ok(messages)
}

/// The message of an update of a batch.
fn update_text(alloc: Global, parts: &Parts<'_>, update: &MessageFile) -> Result<String, AllocError>
    ensures { IfOk result (λ text. string_bytes text ≡ update_text parts.now.host.now parts.now.batch.now.client (sender_view parts.now.sender.now) update.now) }
{
    update_message_text(
        alloc,
        own_id(parts.host, parts.batch.client.as_str()),
        parts.sender.update_field,
        text_line(update.text.as_str()),
        parts.sender.signer.as_str(),
    )
}

/// A text without the end of its last line.
fn text_line(text: &str) -> &str
    ensures { result.now ≡ line_of text.entry.now }
{
    let Some(line) = text.strip_suffix('\n') else {
        return text;
    };
    line
}

/// A copy of a text, if there is one.
fn copy_of(alloc: Global, text: &Option<String>) -> Result<Option<String>, AllocError>
    ensures { IfOk result (λ copy. option_map string_bytes copy ≡ option_map string_bytes text.now) }
{
    match text {
        Some(text) => Ok(Some(String::from_str(alloc, text.as_str())?)),
        None => Ok(None),
    }
}

/// Adds a transaction of a batch with these messages, and with so many transactions before it; none where all of its
/// messages are left out.
fn add_file(
    alloc: Global,
    files: &mut Vec<TransactionFile>,
    parts: &Parts<'_>,
    before: usize,
    transaction: &Transaction,
    messages: &[Option<String>],
) -> Result<(), AllocError>
    requires { before < length parts.now.batch.now.transactions.items }
    ensures { OnOk result (map file_view files.new.items ≡ map file_view files.old.items ++ file_in parts.now.place (sender_view parts.now.sender.now) (map (option_map string_bytes) messages.now) (before, transaction.now)) }
{
    let own = messages_in(alloc, transaction, messages)?;
    if own.is_empty() {
        return Ok(());
    }
    let number = files.len() as u128 + 1;
    let host = parts.host;
    files.push(TransactionFile {
        batch: parts.place,
        number: before + 1,
        messages: own.len(),
        name: format!(in alloc; "tx-{number}-{host}.json")?,
        text: text_of(alloc, parts.sender, transaction.gas, own.as_slice())?,
    })?;
    Ok(())
}

/// The messages of a transaction, without those that are left out.
fn messages_in(
    alloc: Global,
    transaction: &Transaction,
    messages: &[Option<String>],
) -> Result<Vec<String>, AllocError>
    ensures { IfOk result (λ own. map string_bytes own.items ≡ messages_in transaction.now (map (option_map string_bytes) messages.now)) }
{
    let all = part(messages, transaction.first, transaction.count);
    let mut own = Vec::new(alloc);
    for message in all {
        if let Some(text) = message {
            own.push(String::from_str(alloc, text.as_str())?)?;
        }
    }
    Ok(own)
}

/// So many items from a place on, or as many as there are.
#[tactic(auto, using(std::proofs::lemmas::List::take_min, std::proofs::lemmas::List::drop_min))]
fn part<T>(items: &[T], first: usize, count: usize) -> &[T]
    ensures { result.now ≡ take count (drop first items.entry.now) }
{
    let (_, behind) = items.split_at(first.min(items.len()));
    let (own, _) = behind.split_at(count.min(behind.len()));
    own
}

/// The text of a transaction of these messages, which take so much gas.
fn text_of(
    alloc: Global,
    sender: &Sender,
    gas: u64,
    messages: &[String],
) -> Result<String, AllocError>
    ensures { IfOk result (λ text. string_bytes text ≡ text_of (sender_view sender.now) gas (map string_bytes messages.now)) }
{
    let limit = gas_limit(gas, sender.gas_factor);
    let fee = Fee {
        denom: sender.fee_denom.as_str(),
        amount: fee_amount(limit, sender.gas_price),
        gas_limit: limit,
    };
    transaction_text(alloc, messages, &fee)
}

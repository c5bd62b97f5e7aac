//! The files of messages: the answers on chains are read, and a new folder is filled.
ghost use Rattle.std.specs.Prelude.{◌≡◌, IfOk, map, string_bytes, true};
ghost use Rattle.std.specs.List.{enumerate_from};
ghost use Rattle.rb_messages.specs.Names.{file_name};
ghost use Rattle.ibcplan_folders.specs.Folders.{AreAnswersIn, OfKnown};
ghost use Rattle.ibcplan_folders.specs.Messages.{AreAnswersOn, AreMessagesBy, is_updated};
ghost use Rattle.ibcplan_folders.specs.declared.reading.Votes.TheVariants.{Kept};

use crate::answer_folders::AnswerFolders;
use crate::file_system::FileSystem;
use crate::importing::{add, path_in, read_folder};
use crate::reading::Votes;
use ibcplan_cli::ProgramError;
use rb_base::ChainId;
use rb_import_check::Saved;
use rb_messages::{
    MessageError, MessageFile, PlannedBatch, PlannedUpdate, TransactionFile, file_name,
    message_files, seen_chains,
};
use std::alloc::{AllocError, Global};
use std::fs;
use std::thread::Threads;

/// The answers on each chain, from the folder of its identifier; none on a chain that no update is of.
pub fn read_answers<'a, R: Threads + Sync, F: AnswerFolders>(
    rt: &R,
    files: &F,
    chains: &[ChainId],
    updates: &[PlannedUpdate],
) -> Result<Vec<Vec<Saved>>, ProgramError<'a>>
    ensures { IfOk result (λ answers. OfKnown (F.known files.now) (λ known. AreAnswersOn known updates.now chains.now answers.items)) }
{
    let mut answers = Vec::new(files.alloc());
    for (place, chain) in chains.iter().enumerate() {
        let is_needed = is_updated(updates, place);
        let one = answers_on(rt, files, chain.as_str(), is_needed)?;
        add(&mut answers, one)?;
    }
    Ok(answers)
}

/// The answers on a chain, if they are needed.
fn answers_on<'a, R: Threads + Sync, F: AnswerFolders>(
    rt: &R,
    files: &F,
    chain: &str,
    is_needed: bool,
) -> Result<Vec<Saved>, ProgramError<'a>>
    ensures { IfOk result (λ saved. OfKnown (F.known files.now) (λ known. is_needed ≡ true → AreAnswersIn Kept 0 chain.now known saved.items)) }
{
    if is_needed {
        read_folder(rt, files, chain, 0, Votes::Kept)
    } else {
        Ok(Vec::new(files.alloc()))
    }
}

/// Whether one of the updates is of the chain at a place.
fn is_updated(updates: &[PlannedUpdate], place: usize) -> bool
    ensures { result ≡ is_updated updates.now place }
{
    updates.iter().any(|update| update.chain == place)
}

/// The files of the messages of updates, by the answers on each chain.
pub fn files_of<'a>(
    alloc: Global,
    chains: &[ChainId],
    answers: &[Vec<Saved>],
    updates: &[PlannedUpdate],
) -> Result<Vec<MessageFile>, ProgramError<'a>>
    ensures names { IfOk result (λ files. map (λ f. string_bytes f.name) files.items ≡ map (λ p. file_name p.0 p.1) (enumerate_from 0 updates.now)) }
    ensures messages { IfOk result (λ files. AreMessagesBy chains.now answers.now updates.now files.items) }
{
    match made_files(alloc, chains, answers, updates) {
        Ok(files) => Ok(files),
        Err(error) => Err(refused(alloc, &error)),
    }
}

fn made_files<'b>(
    alloc: Global,
    chains: &'b [ChainId],
    answers: &'b [Vec<Saved>],
    updates: &[PlannedUpdate],
) -> Result<Vec<MessageFile>, MessageError<'b>>
    ensures names { IfOk result (λ files. map (λ f. string_bytes f.name) files.items ≡ map (λ p. file_name p.0 p.1) (enumerate_from 0 updates.now)) }
    ensures messages { IfOk result (λ files. AreMessagesBy chains.entry.now answers.entry.now updates.now files.items) }
{
    match seen_chains(alloc, chains, answers) {
        Ok(seen) => message_files(alloc, chains, seen.as_slice(), updates),
        Err(error) => Err(error),
    }
}

/// Why no messages are made.
fn refused<'a>(alloc: Global, error: &MessageError<'_>) -> ProgramError<'a> {
    if let MessageError::NoMemory = error {
        return ProgramError::NoMemory;
    }
    match format!(in alloc; "{error}") {
        Ok(text) => ProgramError::RefusedAnswers(text),
        Err(_) => ProgramError::NoMemory,
    }
}

/// Writes the files of messages and of transactions into a new folder, and the shell file that sends them.
pub fn write_files<'a, R: FileSystem>(
    rt: &R,
    folder: &str,
    files: &[MessageFile],
    transactions: &[TransactionFile],
    shell: &str,
) -> Result<(), ProgramError<'a>> {
    if let Err(error) = fs::create_dir(rt, folder) {
        return Err(ProgramError::of_new_file(rt.alloc(), folder, error));
    }
    for file in files {
        write_file(rt, folder, file.name.as_str(), file.text.as_str())?;
    }
    for file in transactions {
        write_file(rt, folder, file.name.as_str(), file.text.as_str())?;
    }
    write_file(rt, folder, "send.sh", shell)
}

fn write_file<'a, R: FileSystem>(
    rt: &R,
    folder: &str,
    name: &str,
    text: &str,
) -> Result<(), ProgramError<'a>> {
    let path = path_in(rt.alloc(), folder, name)?;
    match fs::write(rt, path.as_str(), text) {
        Ok(()) => Ok(()),
        Err(error) => Err(ProgramError::of_new_file(rt.alloc(), path.as_str(), error)),
    }
}

/// A line for the message of each update, in the order in which they are sent, then one for each transaction.
pub fn lines_of(
    alloc: Global,
    updates: &[PlannedUpdate],
    batches: &[PlannedBatch],
    transactions: &[TransactionFile],
) -> Result<String, AllocError> {
    let mut text = String::new(alloc);
    for (place, update) in updates.iter().enumerate() {
        let file = file_name(alloc, place, update)?;
        let client = update.client.as_str();
        let transaction = update.transaction;
        writeln!(text, "{file} client {client} transaction {transaction}")?;
    }
    for transaction in transactions {
        push_transaction(&mut text, batches, transaction)?;
    }
    Ok(text)
}

/// Adds the line of a transaction: its file, its client, its number in the batch, and how many messages it has.
fn push_transaction(
    text: &mut String,
    batches: &[PlannedBatch],
    transaction: &TransactionFile,
) -> Result<(), AllocError> {
    let Some(batch) = batches.get(transaction.batch) else {
        return Ok(());
    };
    let file = transaction.name.as_str();
    let client = batch.client.as_str();
    let number = transaction.number;
    let count = transaction.messages;
    writeln!(
        text,
        "{file} client {client} transaction {number} messages {count}"
    )
}

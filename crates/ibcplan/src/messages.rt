//! The client messages and the transactions of a script's last turn, or of a setup's, made of the answers of nodes.
ghost use Rattle.std.specs.Prelude.{◌≡◌, IfOk, IfSome, max};
ghost use Rattle.rb_script_types.specs.Script.{script_view, IsReadScript};
ghost use Rattle.ibcplan.specs.Headline.{AreMessagesOf, AreSendersOf, HasParcel, IsParcelOf, IsSentBy};
ghost use Rattle.ibcplan.specs.Sendings.{IsSendingOf};
ghost use Rattle.ibcplan_folders.specs.Packets.{ArePacketTexts};

use crate::given::script_of_text;
use crate::host::Host;
use crate::parcel::Parcel;
use ibcplan_cli::{Import, Input, ProgramError, status};
use ibcplan_folders::{
    AnswerFolders, HostFolders, MadeScript, PacketTexts, files_of, lines_of, made, packet_texts,
    read_answers, write_files,
};
use rb_base::Gate;
use rb_core::Core;
use rb_import_setup::{Sender, is_setup, read_setup};
use rb_messages::{
    PlannedBatch, PlannedUpdate, TransactionFile, planned_batches, planned_updates, shell_of,
    transaction_files, transactions_shell_of,
};
use rb_script_types::{Config, Script};
use rb_super::run_to_end;
use std::alloc::{AllocError, Global};
use std::thread::Threads;

/// The lines that tell of messages, or of the proofs that are asked for; those that tell what is left out; and the status
/// to end with.
#[derive(Drop)]
pub struct MessageLines {
    pub lines: String,
    pub notices: String,
    pub status: u8,
}

/// What is written, if no proof is asked for, with the shell file that sends it, and what is told.
#[derive(Drop)]
pub struct Sent {
    pub parcel: Option<Parcel>,
    pub shell: String,
    pub told: MessageLines,
}

/// A relayer after a script's last turn, and what this turn sends.
#[derive(Drop)]
struct Sending {
    relayer: Core,
    updates: Vec<PlannedUpdate>,
    batches: Vec<PlannedBatch>,
}

/// Writes the messages of the script or of the setup in a file into a folder, and answers the lines that tell of them.
/// Nothing is written where one of an update isn't made, or where a proof is to be asked for.
pub fn messages_of<'a, R: Host, G: Gate + Sync>(
    rt: &R,
    import: Import<'a>,
    output: &str,
    gate: &G,
) -> Result<MessageLines, ProgramError<'a>> {
    let input = Input::read(rt, import.setup)?;
    let files = HostFolders {
        rt,
        folder: import.folder,
    };
    let sent = match is_setup(rt.alloc(), input.bytes()) {
        Ok(true) => sent_by_setup(rt, &files, &input, import, gate)?,
        Ok(false) => sent_by_text(rt, &files, &input, gate)?,
        Err(_) => return Err(ProgramError::NoMemory),
    };
    let Sent {
        parcel,
        shell,
        told,
    } = sent;
    if let Some(parcel) = &parcel {
        let messages = parcel.messages.as_slice();
        let transactions = parcel.transactions.as_slice();
        write_files(rt, output, messages, transactions, shell.as_str())?;
    }
    Ok(told)
}

/// The messages of a setup, by the answers in folders.
pub fn sent_by_setup<'a, R: Threads + Sync, F: AnswerFolders, G: Gate + Sync>(
    rt: &R,
    files: &F,
    input: &Input<'a>,
    import: Import<'_>,
    gate: &G,
) -> Result<Sent, ProgramError<'a>>
    ensures { IfOk result (λ sent. IfSome sent.parcel (AreMessagesOf (F.known files.now) input.now import.entry sent.told.status)) }
{
    let senders = senders_of(files.alloc(), input)?;
    let imported = made(rt, files, input, import)?;
    let MadeScript {
        script,
        notices,
        status,
    } = imported;
    let sent = sent_by(rt, files, script, senders.as_slice(), gate)?;
    told_behind(files.alloc(), notices.as_str(), status, sent)
}

/// What is sent, told behind the notices of the answers that its script was made of.
fn told_behind<'a>(
    alloc: Global,
    notices: &str,
    status: u8,
    sent: Sent,
) -> Result<Sent, ProgramError<'a>>
    ensures parcel { IfOk result (λ told. told.parcel ≡ sent.parcel) }
    ensures status { IfOk result (λ told. told.told.status ≡ max sent.told.status status) }
{
    let Sent {
        parcel,
        shell,
        told,
    } = sent;
    let behind = told.notices.as_str();
    match format!(in alloc; "{notices}{behind}") {
        Ok(notices) => Ok(Sent {
            parcel,
            shell,
            told: MessageLines {
                lines: told.lines,
                notices,
                status: told.status.max(status),
            },
        }),
        Err(_) => Err(ProgramError::NoMemory),
    }
}

/// The messages of the script in a text.
fn sent_by_text<'a, R: Threads + Sync, F: AnswerFolders, G: Gate + Sync>(
    rt: &R,
    files: &F,
    input: &Input<'a>,
    gate: &G,
) -> Result<Sent, ProgramError<'a>> {
    let given = script_of_text(rt, files.alloc(), input, 0)?;
    sent_by(rt, files, given.script, &[], gate)
}

/// Who sends transactions to each of a setup's chains.
fn senders_of<'a>(alloc: Global, input: &Input<'a>) -> Result<Vec<Option<Sender>>, ProgramError<'a>>
    ensures { IfOk result (λ senders. AreSendersOf input.now senders.items) }
{
    match read_setup(alloc, input.bytes()) {
        Ok(setup) => Ok(setup.senders),
        Err(error) => Err(ProgramError::of_setup(error, input)),
    }
}

/// The messages of a script.
fn sent_by<'a, R: Threads + Sync, F: AnswerFolders, G: Gate + Sync>(
    rt: &R,
    files: &F,
    script: Script,
    senders: &[Option<Sender>],
    gate: &G,
) -> Result<Sent, ProgramError<'a>>
    requires { IsReadScript (script_view script) }
    ensures { IfOk result (λ sent. IfSome sent.parcel (IsParcelOf (F.known files.now) (script_view script) senders.now)) }
{
    match sending_of(rt, files.alloc(), script, gate) {
        Ok(sending) => proved(rt, files, &sending, senders),
        Err(_) => Err(ProgramError::NoMemory),
    }
}

/// Runs a script: the relayer after its last turn, and what that turn sends.
fn sending_of<R: Threads + Sync, G: Gate + Sync>(
    rt: &R,
    alloc: Global,
    script: Script,
    gate: &G,
) -> Result<Sending, AllocError>
    requires { IsReadScript (script_view script) }
    ensures { IfOk result (λ sending. IsSendingOf (script_view script) sending.relayer sending.updates.items sending.batches.items) }
{
    let (report, relayer) = run_to_end(rt, alloc, script, 0, gate)?;
    let updates = planned_updates(alloc, &report, &relayer)?;
    let batches = planned_batches(alloc, &report, &relayer)?;
    Ok(Sending {
        relayer,
        updates,
        batches,
    })
}

/// Judges the proofs of packet messages; where some aren't there, they are asked for, and else the messages are made.
fn proved<'a, R: Threads + Sync, F: AnswerFolders>(
    rt: &R,
    files: &F,
    sending: &Sending,
    senders: &[Option<Sender>],
) -> Result<Sent, ProgramError<'a>>
    ensures { IfOk result (λ sent. IfSome sent.parcel (IsSentBy (F.known files.now) sending.now.relayer sending.now.updates.items sending.now.batches.items senders.now)) }
{
    let config = sending.relayer.config();
    let batches = sending.batches.as_slice();
    let PacketTexts {
        texts,
        wanted,
        left_out,
    } = packet_texts(files, config, senders, batches)?;
    if !wanted.is_empty() {
        return Ok(Sent {
            parcel: None,
            shell: String::new(files.alloc()),
            told: MessageLines {
                lines: wanted,
                notices: left_out,
                status: status::PARTLY_LEFT_OUT,
            },
        });
    }
    let updates = sending.updates.as_slice();
    let packets = texts.as_slice();
    let parcel = parcel_of(rt, files, config, updates, batches, senders, packets)?;
    let (shell, lines) = told_of(files.alloc(), sending, senders, &parcel)?;
    let status = if left_out.is_empty() {
        status::DONE
    } else {
        status::PARTLY_LEFT_OUT
    };
    Ok(Sent {
        parcel: Some(parcel),
        shell,
        told: MessageLines {
            lines,
            notices: left_out,
            status,
        },
    })
}

/// Reads the answers on chains, and makes the messages of updates and the transactions.
fn parcel_of<'a, R: Threads + Sync, F: AnswerFolders>(
    rt: &R,
    files: &F,
    config: &Config,
    updates: &[PlannedUpdate],
    batches: &[PlannedBatch],
    senders: &[Option<Sender>],
    packets: &[Vec<Option<String>>],
) -> Result<Parcel, ProgramError<'a>>
    requires { ArePacketTexts (F.known files.now) config.now senders.now batches.now packets.now }
    ensures { IfOk result (HasParcel (F.known files.now) config.now updates.now batches.now senders.now) }
{
    let chains = config.chains.as_slice();
    let answers = read_answers(rt, files, chains, updates)?;
    let messages = files_of(files.alloc(), chains, answers.as_slice(), updates)?;
    let made = messages.as_slice();
    match transaction_files(files.alloc(), chains, senders, batches, made, packets) {
        Ok(transactions) => Ok(Parcel {
            messages,
            transactions,
        }),
        Err(_) => Err(ProgramError::NoMemory),
    }
}

/// The shell file of what is sent, and the lines that tell of it.
fn told_of<'a>(
    alloc: Global,
    sending: &Sending,
    senders: &[Option<Sender>],
    parcel: &Parcel,
) -> Result<(String, String), ProgramError<'a>> {
    let updates = sending.updates.as_slice();
    let batches = sending.batches.as_slice();
    let transactions = parcel.transactions.as_slice();
    let Ok(shell) = shell_for(alloc, sending, senders, transactions) else {
        return Err(ProgramError::NoMemory);
    };
    match lines_of(alloc, updates, batches, transactions) {
        Ok(lines) => Ok((shell, lines)),
        Err(_) => Err(ProgramError::NoMemory),
    }
}

/// The shell file that sends the transactions, or where there are none the messages of the updates.
fn shell_for(
    alloc: Global,
    sending: &Sending,
    senders: &[Option<Sender>],
    transactions: &[TransactionFile],
) -> Result<String, AllocError> {
    let updates = sending.updates.as_slice();
    if transactions.is_empty() {
        return shell_of(alloc, &sending.relayer, updates);
    }
    let batches = sending.batches.as_slice();
    transactions_shell_of(
        alloc,
        &sending.relayer,
        senders,
        batches,
        updates,
        transactions,
    )
}

//! The packet messages of batches: the folders of paths are read, and what they hold of proofs.
ghost use Rattle.std.specs.Prelude.{◌≡◌, [], All, IfOk, IfSome, IsSomeAnd, OnOk, Some, map, slice_index_or, string_bytes};
ghost use Rattle.std.specs.List.{AllZip};
ghost use Rattle.rb_import_answers.specs.Revisions.{IsRevision};
ghost use Rattle.rb_packets.specs.Ends.{ends_in};
ghost use Rattle.rb_packets.specs.Facts.{AreFactsIn, answer_view, facts_view};
ghost use Rattle.rb_packets.specs.Messages.{due_view};
ghost use Rattle.ibcplan_folders.specs.Folders.{OfKnown, content};
ghost use Rattle.ibcplan_folders.specs.Packets.{ArePacketTexts, IsDue, IsTextOf, StandFor, StandsFor, WasRead, WereRead, WereReadOf, answers_at, proofs_of};

use crate::answer_folders::AnswerFolders;
use crate::importing::{add, of_file, of_folder, path_in};
use ibcplan_cli::{ProgramError, shown_text};
use rb_base::ChainId;
use rb_import_answers::revision_of;
use rb_import_setup::Sender;
use rb_messages::{PlannedBatch, id_of, sender_to};
use rb_packets::{
    DueMessage, Ends, PacketError, PacketFacts, PathAnswer, ProofRequest, RevisionHeight, ends_of,
    facts_of, message_text, read_path_answer, request_of,
};
use rb_plan_client::Message;
use rb_scan::{Kind, Order};
use rb_script_types::{Config, PathConfig};
use std::alloc::{AllocError, Global};
use std::io;

/// The packet messages of batches: of each batch the texts of its messages, none of one that is left out; the lines that
/// ask for the proofs that aren't there; and those that tell what is left out.
#[derive(Drop)]
pub struct PacketTexts {
    pub texts: Vec<Vec<Option<String>>>,
    pub wanted: String,
    pub left_out: String,
}

/// The lines of the proofs that are asked for, and those of what is left out.
#[derive(Drop)]
struct Lines {
    wanted: String,
    left_out: String,
}

/// What the messages of a batch are made of: the configuration, what the folder of each path
/// tells, the batch, and the account that signs.
#[derive(Clone, Copy)]
struct Source<'s> {
    config: &'s Config,
    answers: &'s [Vec<PathAnswer>],
    batch: &'s PlannedBatch,
    signer: &'s str,
}

/// What is known of the packet of a message, and the app hash that its proof is judged by.
#[derive(Drop)]
struct KnownPacket {
    ends: Ends,
    facts: PacketFacts,
    app_hash: [u8; 32],
}

/// Why there is no answer of a node that was asked for a proof.
#[derive(Clone, Copy)]
enum NoAnswer {
    Refused,
    Missing,
}

/// Why a message isn't made.
#[derive(Drop)]
enum Unmade {
    /// Its proof is asked for.
    Wanted(ProofRequest),
    /// It is left out, by what stands in a file or a folder.
    LeftOut { place: String, error: PacketError },
}

/// A path and a kind of messages of which no more are made.
#[derive(Clone, Copy)]
struct Stop {
    path: usize,
    kind: Kind,
}

/// The packet messages of batches, as far as somebody sends to their hosts, by the answers in a folder.
pub fn packet_texts<'a, F: AnswerFolders>(
    files: &F,
    config: &Config,
    senders: &[Option<Sender>],
    batches: &[PlannedBatch],
) -> Result<PacketTexts, ProgramError<'a>>
    ensures { IfOk result (λ packets. ArePacketTexts (F.known files.now) config.now senders.now batches.now packets.texts.items) }
{
    let read = path_answers(files, config.paths.as_slice(), senders, batches)?;
    let answers = read.as_slice();
    let mut texts = Vec::new(files.alloc());
    let mut lines = Lines {
        wanted: String::new(files.alloc()),
        left_out: String::new(files.alloc()),
    };
    for batch in batches {
        let own = texts_of(files, config, senders, answers, batch, &mut lines)?;
        add(&mut texts, own)?;
    }
    let Lines { wanted, left_out } = lines;
    Ok(PacketTexts {
        texts,
        wanted,
        left_out,
    })
}

/// The texts of the packet messages of a batch; none where nobody sends to its host.
fn texts_of<'a, F: AnswerFolders>(
    files: &F,
    config: &Config,
    senders: &[Option<Sender>],
    answers: &[Vec<PathAnswer>],
    batch: &PlannedBatch,
    lines: &mut Lines,
) -> Result<Vec<Option<String>>, ProgramError<'a>>
    ensures { IfOk result (StandFor (F.known files.now) config.now senders.now answers.now batch.now) }
{
    match sender_to(senders, batch.host) {
        Some(sender) => {
            let source = Source {
                config,
                answers,
                batch,
                signer: sender.signer.as_str(),
            };
            batch_texts(files, &source, lines)
        }
        None => Ok(Vec::new(files.alloc())),
    }
}

/// What the folder of each path tells of packets; nothing of a path that no message is of.
fn path_answers<'a, F: AnswerFolders>(
    files: &F,
    paths: &[PathConfig],
    senders: &[Option<Sender>],
    batches: &[PlannedBatch],
) -> Result<Vec<Vec<PathAnswer>>, ProgramError<'a>>
    ensures { IfOk result (λ answers. AllZip (WereReadOf (F.known files.now)) paths.now answers.items) }
{
    let mut answers = Vec::new(files.alloc());
    for (place, path) in paths.iter().enumerate() {
        let is_needed = is_sent_on(senders, batches, place);
        let told = answers_on(files, path.id.as_str(), is_needed)?;
        add(&mut answers, told)?;
    }
    Ok(answers)
}

/// Whether a batch that somebody sends has a message of the path at a place.
fn is_sent_on(senders: &[Option<Sender>], batches: &[PlannedBatch], path: usize) -> bool {
    batches.iter().any(|batch| {
        sender_to(senders, batch.host).is_some()
            && batch.messages.iter().any(|message| message.path() == path)
    })
}

/// The answers to `/tx_search` in the folder of a path, in the order of their files' names; none where they aren't needed.
fn answers_on<'a, F: AnswerFolders>(
    files: &F,
    id: &str,
    is_needed: bool,
) -> Result<Vec<PathAnswer>, ProgramError<'a>>
    ensures { IfOk result (WereRead (F.known files.now) id.now) }
{
    let mut answers = Vec::new(files.alloc());
    if !is_needed {
        return Ok(answers);
    }
    let names = match files.names(id) {
        Ok(names) => names,
        Err(error) => return Err(of_folder(files, id, error)),
    };
    for name in &names {
        add_answer(files, id, name.as_str(), &mut answers)?;
    }
    Ok(answers)
}

/// Adds the answer in a folder's file, if it is one to `/tx_search`.
fn add_answer<'a, F: AnswerFolders>(
    files: &F,
    folder: &str,
    name: &str,
    answers: &mut Vec<PathAnswer>,
) -> Result<(), ProgramError<'a>>
    ensures { OnOk result (WereRead (F.known files.now) folder.now answers.old → WereRead (F.known files.now) folder.now answers.new) }
{
    match answer_in(files, folder, name)? {
        Some(answer) => add(answers, answer),
        None => Ok(()),
    }
}

/// The answer in a folder's file, if it is one to `/tx_search`.
fn answer_in<'a, F: AnswerFolders>(
    files: &F,
    folder: &str,
    name: &str,
) -> Result<Option<PathAnswer>, ProgramError<'a>>
    ensures { IfOk result (λ read. IfSome read (WasRead (F.known files.now) folder.now)) }
{
    let bytes = match files.read(folder, name) {
        Ok(bytes) => bytes,
        Err(error) => return Err(of_file(files, folder, name, error)),
    };
    match read_path_answer(files.alloc(), bytes.as_slice()) {
        Ok(read) => Ok(read),
        Err(_) => Err(ProgramError::NoMemory),
    }
}

/// The texts of the packet messages of a batch; what else comes of them is told.
fn batch_texts<'a, F: AnswerFolders>(
    files: &F,
    source: &Source<'_>,
    lines: &mut Lines,
) -> Result<Vec<Option<String>>, ProgramError<'a>>
    ensures { IfOk result (λ texts. AllZip (StandsFor (F.known files.now) source.now.config.now source.now.batch.now source.now.answers.now source.now.signer.now) source.now.batch.now.messages.items texts.items) }
{
    let mut texts = Vec::new(files.alloc());
    let mut stops = Vec::new(files.alloc());
    for message in &source.batch.messages {
        let text = text_for(files, source, message, &mut stops, lines)?;
        add(&mut texts, text)?;
    }
    Ok(texts)
}

/// The text of a packet message; what else comes of it is told. On an ORDERED path nothing is made behind a message of the
/// same kind that is left out.
fn text_for<'a, F: AnswerFolders>(
    files: &F,
    source: &Source<'_>,
    message: &Message,
    stops: &mut Vec<Stop>,
    lines: &mut Lines,
) -> Result<Option<String>, ProgramError<'a>>
    ensures { IfOk result (StandsFor (F.known files.now) source.now.config.now source.now.batch.now source.now.answers.now source.now.signer.now message.now) }
{
    let Some(path) = source.config.paths.get(message.path()) else {
        return Ok(None);
    };
    match outcome_of(files, source, path, message, stops.as_slice())? {
        Ok(text) => Ok(Some(text)),
        Err(unmade) => {
            if matches!(unmade, Unmade::LeftOut { .. }) && path.order == Order::Ordered {
                let kind = message.packet().kind;
                let path = message.path();
                add(stops, Stop { path, kind })?;
            }
            tell(source, path, message, &unmade, lines)?;
            Ok(None)
        }
    }
}

/// Whether no more messages of a kind are made of the path at a place.
fn is_behind(stops: &[Stop], path: usize, kind: Kind) -> bool {
    stops
        .iter()
        .any(|stop| stop.path == path && stop.kind == kind)
}

/// Tells why a message isn't made.
fn tell<'a>(
    source: &Source<'_>,
    path: &PathConfig,
    message: &Message,
    unmade: &Unmade,
    lines: &mut Lines,
) -> Result<(), ProgramError<'a>> {
    let id = path.id.as_str();
    let added = match unmade {
        Unmade::Wanted(request) => {
            let chain = id_of(source.config.chains.as_slice(), source.batch.chain);
            let query = request.query.as_str();
            let file = request.file.as_str();
            let text = &mut lines.wanted;
            writeln!(text, "get {chain} {query} {id}/proofs/{file}")
        }
        Unmade::LeftOut { place, error } => {
            let kind = kind_word(message.packet().kind);
            let sequence = message.packet().sequence;
            let advice = error.advice();
            let text = &mut lines.left_out;
            writeln!(
                text,
                "left out {id} {kind} {sequence}: {error}\n{place}: {advice}"
            )
        }
    };
    match added {
        Ok(()) => Ok(()),
        Err(_) => Err(ProgramError::NoMemory),
    }
}

/// A kind of messages as reports name it.
fn kind_word(kind: Kind) -> &'static str {
    match kind {
        Kind::Receive => "recv",
        Kind::Acknowledge => "ack",
        Kind::Timeout => "timeout",
    }
}

/// The text of a message of a path, or why it isn't made: none is made behind one of its kind that is left out.
#[tactic(auto, using(crate::proofs::Told::proven_text))]
fn outcome_of<'a, F: AnswerFolders>(
    files: &F,
    source: &Source<'_>,
    path: &PathConfig,
    message: &Message,
    stops: &[Stop],
) -> Result<Result<String, Unmade>, ProgramError<'a>>
    ensures { IfOk result (λ outcome. IfOk outcome (λ text. IsTextOf (F.known files.now) source.now.config.now source.now.batch.now (answers_at source.now.answers.now message.now.path) source.now.signer.now path.now message.now (string_bytes text))) }
{
    if is_behind(stops, message.path(), message.packet().kind) {
        return not_made(files, path, None, PacketError::Behind);
    }
    let known = match known_of(files.alloc(), source, path, message) {
        Ok(known) => known,
        Err(error) => return not_made(files, path, None, error),
    };
    let due = due_of(source, path, message, &known);
    let Ok(request) = request_of(files.alloc(), &due) else {
        return Err(ProgramError::NoMemory);
    };
    let file = request.file.as_str();
    match proof_answer(files, path.id.as_str(), file)? {
        Ok(bytes) => match message_text(files.alloc(), &due, source.signer, bytes.as_slice()) {
            Ok(text) => Ok(Ok(text)),
            Err(error) => not_made(files, path, Some(file), error),
        },
        Err(NoAnswer::Missing) => Ok(Err(Unmade::Wanted(request))),
        Err(NoAnswer::Refused) => {
            let error = PacketError::NodeRefused;
            not_made(files, path, Some(file), error)
        }
    }
}

/// A message of a batch on a path that is due, by what is known of its packet.
fn due_of<'k>(
    source: &Source<'_>,
    path: &PathConfig,
    message: &Message,
    known: &'k KnownPacket,
) -> DueMessage<'k>
    requires ends { ends_in path.now.channel ≡ Some known.now.ends }
    requires facts { AreFactsIn message.now.packet.kind known.now.ends message.now.packet.sequence (map answer_view (answers_at source.now.answers.now message.now.path)) (facts_view known.now.facts) }
    requires app_hash { IsSomeAnd source.now.batch.now.proof_record (λ r. known.now.app_hash ≡ r.root) }
    ensures { IsDue source.now.config.now source.now.batch.now (answers_at source.now.answers.now message.now.path) path.now message.now (due_view result) }
{
    DueMessage {
        kind: message.packet().kind,
        order: path.order,
        ends: known.ends,
        sequence: message.packet().sequence.get(),
        facts: &known.facts,
        app_hash: known.app_hash,
        proof_height: proof_height(source.config.chains.as_slice(), source.batch),
    }
}

/// That a message is left out, by what stands in a file of a path's proofs, or else in the path's folder.
fn not_made<'a, F: AnswerFolders>(
    files: &F,
    path: &PathConfig,
    file: Option<&str>,
    error: PacketError,
) -> Result<Result<String, Unmade>, ProgramError<'a>>
    ensures { IfOk result (λ outcome. IfOk outcome (λ _. ⊥)) }
{
    if error == PacketError::NoMemory {
        return Err(ProgramError::NoMemory);
    }
    match place_of(files, path.id.as_str(), file) {
        Ok(place) => Ok(Err(Unmade::LeftOut { place, error })),
        Err(_) => Err(ProgramError::NoMemory),
    }
}

/// A file of a path's proofs, or the path's folder, as messages show it.
fn place_of<F: AnswerFolders>(
    files: &F,
    path: &str,
    file: Option<&str>,
) -> Result<String, AllocError> {
    let path = files.place(path)?;
    match file {
        Some(file) => {
            let place = format!(in files.alloc(); "{path}/proofs/{file}")?;
            shown_text(files.alloc(), place.as_str())
        }
        None => shown_text(files.alloc(), path.as_str()),
    }
}

/// What is known of the packet of a message.
fn known_of(
    alloc: Global,
    source: &Source<'_>,
    path: &PathConfig,
    message: &Message,
) -> Result<KnownPacket, PacketError>
    ensures ends { IfOk result (λ known. ends_in path.now.channel ≡ Some known.ends) }
    ensures facts { IfOk result (λ known. AreFactsIn message.now.packet.kind known.ends message.now.packet.sequence (map answer_view (answers_at source.now.answers.now message.now.path)) (facts_view known.facts)) }
    ensures app_hash { IfOk result (λ known. IsSomeAnd source.now.batch.now.proof_record (λ r. known.app_hash ≡ r.root)) }
{
    let Some(ends) = ends_of(path.channel) else {
        return Err(PacketError::NoChannel);
    };
    let packet = message.packet();
    let answers = answers_at(source.answers, message.path());
    let facts = facts_of(alloc, answers, &ends, packet.kind, packet.sequence.get())?;
    match &source.batch.proof_record {
        Some(record) => Ok(KnownPacket {
            ends,
            facts,
            app_hash: *record.root(),
        }),
        None => Err(PacketError::NoRecord),
    }
}

/// What was read in the folder of the path at a place.
fn answers_at(answers: &[Vec<PathAnswer>], place: usize) -> &[PathAnswer]
    ensures { result.now ≡ answers_at answers.entry.now place }
{
    match answers.get(place) {
        Some(own) => own.as_slice(),
        None => &[],
    }
}

/// The height that the proofs of a batch are made for, with the revision of the chain that its client tracks.
fn proof_height(chains: &[ChainId], batch: &PlannedBatch) -> RevisionHeight
    ensures height { result.height ≡ batch.now.proof }
    ensures revision { IsRevision (slice_index_or chains.now batch.now.chain []) result.revision }
{
    RevisionHeight {
        revision: revision_of(id_of(chains, batch.chain)),
        height: batch.proof.get(),
    }
}

/// What a node answered whose answer is kept in a file of a path's proofs.
fn proof_answer<'a, F: AnswerFolders>(
    files: &F,
    path: &str,
    file: &str,
) -> Result<Result<Vec<u8>, NoAnswer>, ProgramError<'a>>
    ensures { IfOk result (λ answer. IfOk answer (λ bytes. OfKnown (F.known files.now) (λ known. content (proofs_of path.now) file.now known ≡ Some bytes.items))) }
{
    let proofs = path_in(files.alloc(), path, "proofs")?;
    match files.read(proofs.as_str(), file) {
        Ok(bytes) => Ok(Ok(bytes)),
        Err(error) if error.kind() == io::ErrorKind::NotFound => {
            Ok(Err(no_answer(files, proofs.as_str(), file)?))
        }
        Err(error) => Err(of_file(files, proofs.as_str(), file, error)),
    }
}

/// Whether a node refused to answer: the file stands there with another ending.
fn no_answer<'a, F: AnswerFolders>(
    files: &F,
    proofs: &str,
    file: &str,
) -> Result<NoAnswer, ProgramError<'a>> {
    let name = file.strip_suffix(".json").unwrap_or(file);
    let Ok(refused) = format!(in files.alloc(); "{name}.refused") else {
        return Err(ProgramError::NoMemory);
    };
    match files.read(proofs, refused.as_str()) {
        Ok(_) => Ok(NoAnswer::Refused),
        Err(error) if error.kind() == io::ErrorKind::NotFound => Ok(NoAnswer::Missing),
        Err(error) => Err(of_file(files, proofs, refused.as_str(), error)),
    }
}

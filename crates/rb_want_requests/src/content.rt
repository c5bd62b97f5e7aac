//! The contents of files, as far as the next requests go by them.
ghost use Rattle.std.specs.Prelude.{◌≡◌, IfOk};
ghost use Rattle.rb_import_answers.specs.Pending.{pending_view};
ghost use Rattle.rb_import_answers.specs.Validators.{page_view as set_view};
ghost use Rattle.rb_want_requests.specs.Contents.{content_in, content_view, number_after, pending_content, set_page, validators_number};

use rb_import_answers::{
    ConsensusPage, NodeAnswer, NodeStatus, OtherQuery, PacketPage, Pending, SequencePage,
    SignedHeader, TendermintClientState, ValidatorsPage, read_answer,
};
use rb_import_json::{AnswerError, FieldErrorName, number_of};
use std::alloc::{AllocError, Global};

/// What a file holds.
#[derive(Drop)]
pub enum Content {
    /// The answer to `/commit`.
    Commit(SignedHeader),
    /// A page of the answer to `/validators`, with its number by the file's name.
    Validators {
        number: Option<u64>,
        page: ValidatorsPage,
    },
    /// The state of a client.
    ClientState(TendermintClientState),
    /// The state of a client that is frozen, or isn't Tendermint's.
    OtherClient,
    /// A page of a client's consensus states, with its number by the file's name.
    ConsensusStates {
        number: Option<u64>,
        page: ConsensusPage,
    },
    /// The node's answer to `/status`.
    Status(NodeStatus),
    /// A page of the commitments of a channel's end, with its number by the file's name.
    Commitments {
        number: Option<u64>,
        page: SequencePage,
    },
    /// Which packets of a part a channel's end hasn't received, with the part's number by the file's name.
    Unreceived {
        number: Option<u64>,
        sequences: Vec<u64>,
    },
    /// Of which packets of a part a channel's end has written the acknowledgement, with the part's number by the file's name.
    Acknowledgements {
        number: Option<u64>,
        sequences: Vec<u64>,
    },
    /// What transactions did with packets.
    Search(PacketPage),
    /// Another text.
    Other,
}

/// The folder of a chain, a client or a path: the contents of its files, and the names of the requests that
/// were refused, and of those with an answer of `/tx_search`.
#[derive(Drop)]
pub struct Folder {
    pub contents: Vec<Content>,
    pub refused: Vec<String>,
    pub searched: Vec<String>,
}

/// The folders of each chain, of each client and of each path of a setup, in its order.
#[derive(Drop)]
pub struct Folders {
    pub chains: Vec<Folder>,
    pub clients: Vec<Folder>,
    pub paths: Vec<Folder>,
}

/// The content of a file of this name, without the ending; of a client's consensus states those of this revision and of later
/// ones. `AllocError` comes where a growth is refused.
pub fn content_of(
    alloc: Global,
    name: &str,
    bytes: &[u8],
    since: u64,
) -> Result<Content, AllocError>
    ensures content { IfOk result (λ content. content_view content ≡ content_in since name.now bytes.now) }
{
    match read_answer(alloc, bytes, since) {
        Ok(NodeAnswer::Commit(header)) => Ok(Content::Commit(header)),
        Ok(NodeAnswer::Validators(page)) => validators_in(alloc, name, page),
        Ok(NodeAnswer::ClientState(state)) => Ok(Content::ClientState(state)),
        Ok(NodeAnswer::ConsensusStates(page)) => {
            let number = number_after("consensus_states-", name);
            Ok(Content::ConsensusStates { number, page })
        }
        Ok(NodeAnswer::Transactions(page)) => Ok(Content::Search(page)),
        Ok(NodeAnswer::Pending(pending)) => Ok(pending_in(name, pending)),
        Ok(NodeAnswer::Other(OtherQuery::Status(Some(status)))) => Ok(Content::Status(status)),
        Ok(NodeAnswer::Verdicts(_) | NodeAnswer::Other(_)) => Ok(Content::Other),
        Err(AnswerError::NoMemory) => Err(AllocError),
        Err(AnswerError::Invalid(flaw)) => Ok(match flaw.name {
            FieldErrorName::FrozenClient | FieldErrorName::UnsupportedClient =>
                Content::OtherClient,
            _ => Content::Other,
        }),
    }
}

/// The number that stands in a name behind this front.
fn number_after(front: &str, name: &str) -> Option<u64>
    ensures { result ≡ number_after front.now name.now }
{
    let Some(digits) = name.strip_prefix(front) else {
        return None;
    };
    number_of(digits)
}

/// A page of validators, with its number.
fn validators_in(alloc: Global, name: &str, page: ValidatorsPage) -> Result<Content, AllocError>
    ensures { IfOk result (λ content. content_view content ≡ set_page (validators_number page.height name.now) (set_view page)) }
{
    let height = page.height;
    let front = format!(in alloc; "validators-{height}-")?;
    let number = number_after(front.as_str(), name);
    Ok(Content::Validators { number, page })
}

/// What an answer tells of pending packets, with the number of its page or part.
fn pending_in(name: &str, pending: Pending) -> Content
    ensures { content_view result ≡ pending_content name.now (pending_view pending) }
{
    match pending {
        Pending::Commitments(page) => {
            let number = number_after("commitments-", name);
            Content::Commitments { number, page }
        }
        Pending::Unreceived(sequences) => {
            let number = number_after("unreceived-", name);
            Content::Unreceived { number, sequences }
        }
        Pending::Acknowledgements(sequences) => {
            let number = number_after("acknowledgements-", name);
            Content::Acknowledgements { number, sequences }
        }
    }
}

use crate::same::assert_same;
use rb_base::{ChainId, ClientId, Height, PathId};
use rb_script_types::{ChannelEnd, EndId};
use rb_want_requests::{Content, Folder, Folders, Owner, Query, Request, RequestLine, content_of};
use std::alloc::{AllocError, Global};
use std::process::Abort;
use std::test::Fail;

/// What files hold, in a word.
const FILES: &[(&str, &str)] = &[
    (
        r#"{"result": {"node_info": {"network": "hub-4"}, "sync_info": {"latest_block_height": "81"}}}"#,
        "status 81 hub-4",
    ),
    (
        r#"{"sync_info": {"latest_block_height": "81"}}"#,
        "status 81",
    ),
    (
        r#"{"result": {"sync_info": {"latest_block_height": "0"}}}"#,
        "other",
    ),
    (
        r#"{"result": {"sync_info": {"latest_block_height": 81}}}"#,
        "other",
    ),
    (
        r#"{"error": {"code": -32603, "message": "height 5 is not available"}}"#,
        "other",
    ),
    ("<html>", "other"),
    (
        r#"{"result": {"txs": [], "total_count": "0"}}"#,
        "search of 0",
    ),
    (
        r#"{"commitments": [{"sequence": "5"}, {"sequence": "8"}], "pagination": {"next_key": null}}"#,
        "last commitments of 2",
    ),
    (
        r#"{"commitments": [{"sequence": "5"}], "pagination": {"next_key": "OA=="}}"#,
        "commitments of 1, then OA==",
    ),
    (r#"{"sequences": ["8"], "height": {}}"#, "unreceived 1"),
    (r#"{"sequences": [8]}"#, "other"),
    (
        r#"{"acknowledgements": [{"sequence": "5"}]}"#,
        "acknowledgements of 1",
    ),
    (
        r#"{"client_state": {"@type": "/ibc.lightclients.wasm.v1.ClientState"}}"#,
        "other client",
    ),
    (
        r#"{"consensus_states": [{"height": {"revision_height": "5"}, "consensus_state": {"@type": "/ibc.lightclients.wasm.v1.ConsensusState"}}]}"#,
        "other client",
    ),
    (
        r#"{"consensus_states": [], "pagination": {"next_key": null}}"#,
        "last states",
    ),
    (
        r#"{"consensus_states": [], "pagination": {"next_key": "MS0y"}}"#,
        "states, then MS0y",
    ),
    (
        r#"{"consensusStates": [], "pagination": {"nextKey": "MS0y"}}"#,
        "states, then MS0y",
    ),
];

fn status_word(
    alloc: Global,
    latest: Height,
    network: &Option<ChainId>,
) -> Result<String, AllocError> {
    match network {
        Some(network) => format!(in alloc; "status {latest} {network}"),
        None => format!(in alloc; "status {latest}"),
    }
}

fn states_word(
    alloc: Global,
    is_last: bool,
    next_key: &Option<String>,
) -> Result<String, AllocError> {
    match next_key {
        Some(key) => format!(in alloc; "states, then {key}"),
        None => String::from_str(alloc, if is_last { "last states" } else { "states" }),
    }
}

fn commitments_word(
    alloc: Global,
    count: usize,
    is_last: bool,
    next_key: &Option<String>,
) -> Result<String, AllocError> {
    let last = if is_last { "last " } else { "" };
    match next_key {
        Some(key) => format!(in alloc; "commitments of {count}, then {key}"),
        None => format!(in alloc; "{last}commitments of {count}"),
    }
}

/// Something of which a file holds so many.
fn counted_word(alloc: Global, what: &str, count: usize) -> Result<String, AllocError> {
    format!(in alloc; "{what} {count}")
}

/// The word of what has no number.
fn plain_word(content: &Content) -> &'static str {
    match content {
        Content::Commit(_) => "commit",
        Content::Validators { .. } => "validators",
        Content::ClientState(_) => "client state",
        Content::OtherClient => "other client",
        _ => "other",
    }
}

fn word_of(alloc: Global, content: &Content) -> Result<String, AllocError> {
    match content {
        Content::ConsensusStates { page, .. } => states_word(alloc, page.is_last, &page.next_key),
        Content::Status(status) => status_word(alloc, status.latest, &status.network),
        Content::Commitments { page, .. } => {
            commitments_word(alloc, page.sequences.len(), page.is_last, &page.next_key)
        }
        Content::Unreceived { sequences, .. } => {
            counted_word(alloc, "unreceived", sequences.len())
        }
        Content::Acknowledgements { sequences, .. } => {
            counted_word(alloc, "acknowledgements of", sequences.len())
        }
        Content::Search(page) => counted_word(alloc, "search of", page.events.len()),
        _ => String::from_str(alloc, plain_word(content)),
    }
}

fn check_file(rt: &impl Abort, alloc: Global, text: &str, wanted: &str) -> Result<(), AllocError> {
    let content = content_of(alloc, "", text.as_bytes(), 0)?;
    let word = word_of(alloc, &content)?;
    assert_same(rt, &text, word.as_str(), wanted);
    Ok(())
}

#[test]
fn knows_files_by_what_they_hold(rt: HostRuntime) -> Result<(), Fail> {
    for (text, wanted) in FILES {
        check_file(&rt, rt.alloc(), text, wanted)?;
    }
    Ok(())
}

const SET: &str = r#"{"block_height": "7", "validators": [], "count": "0", "total": "0"}"#;

const LAST_STATES: &str = r#"{"consensus_states": [], "pagination": {"next_key": null}}"#;

/// The numbers of pages and parts by the names of their files.
const NUMBERS: &[(&str, &str, Option<u64>)] = &[
    ("validators-7-2", SET, Some(2)),
    ("validators-8-2", SET, None),
    ("validators-7", SET, None),
    ("consensus_states-12", LAST_STATES, Some(12)),
    ("validators-7-2", LAST_STATES, None),
    ("states-2", LAST_STATES, None),
    ("consensus_states-2b", LAST_STATES, None),
    (
        "commitments-3",
        r#"{"commitments": [], "pagination": {"next_key": null}}"#,
        Some(3),
    ),
    (
        "unreceived-1",
        r#"{"sequences": [], "height": {}}"#,
        Some(1),
    ),
    ("acknowledgements-2", r#"{"acknowledgements": []}"#, Some(2)),
];

fn number_in(content: &Content) -> Option<u64> {
    match content {
        Content::Validators { number, .. }
        | Content::ConsensusStates { number, .. }
        | Content::Commitments { number, .. }
        | Content::Unreceived { number, .. }
        | Content::Acknowledgements { number, .. } => *number,
        _ => Some(0),
    }
}

#[test]
fn knows_pages_by_the_names_of_files(rt: HostRuntime) -> Result<(), Fail> {
    for (name, text, wanted) in NUMBERS {
        let content = content_of(rt.alloc(), name, text.as_bytes(), 0)?;
        assert_same(&rt, name, &number_in(&content), wanted);
    }
    Ok(())
}

/// The pages of a client's consensus states, by the names of their files: the third is lost.
const STATES: &[(&str, &str)] = &[
    (
        "consensus_states-1",
        r#"{"consensus_states": [], "pagination": {"next_key": "MS0y"}}"#,
    ),
    (
        "consensus_states-2",
        r#"{"consensus_states": [], "pagination": {"next_key": "MS0+/w=="}}"#,
    ),
    (
        "consensus_states-4",
        r#"{"consensus_states": [], "pagination": {"next_key": "Mi0x"}}"#,
    ),
];

/// The pages of a channel's commitments, in files of other names.
const COMMITMENTS: &[(&str, &str)] = &[
    (
        "a",
        r#"{"commitments": [{"sequence": "5"}], "pagination": {"next_key": "NQ=="}}"#,
    ),
    (
        "b",
        r#"{"commitments": [{"sequence": "8"}], "pagination": {"next_key": "OA=="}}"#,
    ),
];

/// What is asked for, in numbers.
#[derive(Clone, Copy)]
enum Asked {
    Status,
    Commit(u64),
    /// A height, a page and its size.
    Validators(u64, u64, u64),
    ClientState,
    ConsensusStates(u64),
    Commitments(u64),
    Unreceived(u64),
    Acknowledgements(u64),
    Received(u64),
}

/// What is asked of a chain at a height.
fn height_query_of(asked: Asked) -> Option<Query> {
    match asked {
        Asked::Commit(height) => Some(Query::Commit(Height::new(height)?)),
        Asked::Validators(height, page, size) => Some(Query::Validators {
            height: Height::new(height)?,
            page,
            size,
        }),
        _ => None,
    }
}

fn query_of(asked: Asked) -> Option<Query> {
    match asked {
        Asked::Status => Some(Query::Status),
        Asked::ClientState => Some(Query::ClientState),
        Asked::ConsensusStates(page) => Some(Query::ConsensusStates { page }),
        Asked::Commitments(page) => Some(Query::Commitments { page }),
        Asked::Unreceived(part) => Some(Query::Unreceived { part }),
        Asked::Acknowledgements(part) => Some(Query::Acknowledgements { part }),
        Asked::Received(sequence) => Some(Query::Received(sequence)),
        _ => height_query_of(asked),
    }
}

/// What is asked for, with the line of the request: of a chain, of a client, of a path.
const OF_CHAIN: &[(Asked, &str)] = &[
    (
        Asked::Commit(57_122),
        "get hub-4 /commit?height=57122 hub-4/commit-57122.json",
    ),
    (Asked::Status, "get hub-4 /status hub-4/status"),
    (
        Asked::Validators(57_122, 2, 100),
        "get hub-4 /validators?height=57122&per_page=100&page=2 hub-4/validators-57122-2.json",
    ),
];

const OF_CLIENT: &[(Asked, &str)] = &[
    (
        Asked::ClientState,
        "get hub-4 /ibc/core/client/v1/client_states/07-tendermint-3 07-tendermint-3/client_state.json",
    ),
    (
        Asked::ConsensusStates(3),
        "get hub-4 /ibc/core/client/v1/consensus_states/07-tendermint-3?pagination.limit=1000&pagination.key=MS0%2B%2Fw%3D%3D 07-tendermint-3/consensus_states-3.json",
    ),
];

const OF_PATH: &[(Asked, &str)] = &[
    (
        Asked::Commitments(3),
        "get hub-4 /ibc/core/channel/v1/channels/channel-7/ports/transfer%232/packet_commitments?pagination.limit=1000&pagination.key=OA%3D%3D transfers/commitments-3.json",
    ),
    (
        Asked::Unreceived(1),
        "get hub-4 /ibc/core/channel/v1/channels/channel-7/ports/transfer%232/packet_commitments/5,8/unreceived_packets transfers/unreceived-1.json",
    ),
    (
        Asked::Acknowledgements(1),
        "get hub-4 /ibc/core/channel/v1/channels/channel-7/ports/transfer%232/packet_acknowledgements?packet_commitment_sequences=5&packet_commitment_sequences=8 transfers/acknowledgements-1.json",
    ),
    (
        Asked::Received(8),
        "get hub-4 /tx_search?query=%22recv_packet.packet_dst_channel='channel-7'%20AND%20recv_packet.packet_sequence='8'%22&per_page=100 transfers/received-8.json",
    ),
];

fn folder_of(alloc: Global, pages: &[(&str, &str)]) -> Result<Folder, AllocError> {
    let mut contents = Vec::new(alloc);
    for (name, page) in pages {
        contents.push(content_of(alloc, name, page.as_bytes(), 0)?)?;
    }
    Ok(Folder {
        contents,
        refused: Vec::new(alloc),
        searched: Vec::new(alloc),
    })
}

fn list_of(alloc: Global, folder: Folder) -> Result<Vec<Folder>, AllocError> {
    let mut folders = Vec::new(alloc);
    folders.push(folder)?;
    Ok(folders)
}

/// A client's folder with the pages of its states, and a path's with the page of its commitments.
fn make_folders(alloc: Global) -> Result<Folders, AllocError> {
    let clients = list_of(alloc, folder_of(alloc, STATES)?)?;
    let paths = list_of(alloc, folder_of(alloc, COMMITMENTS)?)?;
    Ok(Folders {
        chains: Vec::new(alloc),
        clients,
        paths,
    })
}

fn make_client() -> Option<Owner> {
    let id = ClientId::new("07-tendermint-3")?;
    Some(Owner::Client { place: 0, id })
}

fn make_path() -> Option<Owner> {
    Some(Owner::Path {
        place: 0,
        id: PathId::new("transfers")?,
        end: ChannelEnd {
            port: EndId::new("transfer#2")?,
            channel: EndId::new("channel-7")?,
        },
    })
}

/// The line of a request to a chain.
fn line_of(alloc: Global, folders: &Folders, request: &Request) -> Result<String, AllocError> {
    let line = RequestLine { folders, request };
    format!(in alloc; "{line}")
}

fn check_line(
    rt: &impl Abort,
    alloc: Global,
    folders: &Folders,
    request: &Request,
    wanted: &str,
) -> Result<(), AllocError> {
    let line = line_of(alloc, folders, request)?;
    assert_same(rt, "line", line.as_str(), wanted);
    Ok(())
}

/// The request of what is asked of an owner.
fn request_of(owner: &Owner, asked: Asked) -> Option<Request> {
    Some(Request {
        chain: ChainId::new("hub-4")?,
        owner: *owner,
        query: query_of(asked)?,
    })
}

/// The lines of what is asked of an owner.
fn check_lines(
    rt: &impl Abort,
    alloc: Global,
    folders: &Folders,
    owner: Option<Owner>,
    rows: &[(Asked, &str)],
) -> Result<(), Fail> {
    let owner = owner.ok_or("owner")?;
    for (asked, wanted) in rows {
        let request = request_of(&owner, *asked).ok_or("request")?;
        check_line(rt, alloc, folders, &request, wanted)?;
    }
    Ok(())
}

fn check_all_lines(rt: &impl Abort, alloc: Global, folders: &Folders) -> Result<(), Fail> {
    check_lines(rt, alloc, folders, Some(Owner::Chain(0)), OF_CHAIN)?;
    check_lines(rt, alloc, folders, make_client(), OF_CLIENT)?;
    check_lines(rt, alloc, folders, make_path(), OF_PATH)
}

#[test]
fn writes_requests(rt: HostRuntime) -> Result<(), Fail> {
    let folders = make_folders(rt.alloc())?;
    check_all_lines(&rt, rt.alloc(), &folders)
}

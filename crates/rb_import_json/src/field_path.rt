//! Where a value stands in an answer.
ghost use Rattle.std.specs.Prelude.{◌≡◌};

use std::fmt;

/// An object or an array of an answer.
#[derive(Clone, Copy)]
pub enum Segment {
    Result,
    SignedHeader,
    Header,
    Version,
    LastBlockId,
    Parts,
    Commit,
    BlockId,
    Signatures,
    Validators,
    ClientState,
    LatestHeight,
    FrozenHeight,
    TrustLevel,
    ConsensusStates,
    Pagination,
    Transactions,
    Verdicts,
    Verdict,
    Commitments,
    Acknowledgements,
    Answer,
}

impl Segment {
    ghost use Rattle.rb_import_json.specs.Names.{part_path};

    /// The keys that lead to it, joined by points; none for the answer itself.
    pub fn path(self) -> &'static str
        ensures { result.now ≡ part_path self }
    {
        match self {
            Segment::Result => "result",
            Segment::SignedHeader => "result.signed_header",
            Segment::Header => "result.signed_header.header",
            Segment::Commit => "result.signed_header.commit",
            Segment::BlockId => "result.signed_header.commit.block_id",
            Segment::Version => "result.signed_header.header.version",
            Segment::LastBlockId => "result.signed_header.header.last_block_id",
            Segment::Parts => "result.signed_header.header.last_block_id.parts",
            Segment::Signatures => "result.signed_header.commit.signatures",
            Segment::Validators => "result.validators",
            Segment::ClientState => "client_state",
            Segment::LatestHeight => "client_state.latest_height",
            Segment::FrozenHeight => "client_state.frozen_height",
            Segment::TrustLevel => "client_state.trust_level",
            Segment::ConsensusStates => "consensus_states",
            Segment::Pagination => "pagination",
            Segment::Transactions => "result.txs",
            Segment::Verdicts => "verdicts",
            Segment::Verdict => "verdicts.commits",
            Segment::Commitments => "commitments",
            Segment::Acknowledgements => "acknowledgements",
            Segment::Answer => "",
        }
    }
}

/// A field of an object, an attribute of an event, or the whole answer.
#[derive(Clone, Copy)]
pub enum Key {
    Acknowledgements,
    App,
    AppHash,
    Attributes,
    Bad,
    Block,
    BlockHeight,
    BlockId,
    BlockIdFlag,
    BlockMetas,
    Chain,
    ChainId,
    ClientState,
    Code,
    Commit,
    Commitments,
    Commits,
    ConsensusHash,
    ConsensusState,
    ConsensusStateHeights,
    ConsensusStates,
    DataHash,
    Denominator,
    Events,
    EvidenceHash,
    FrozenHeight,
    Good,
    Hash,
    Header,
    Height,
    LastBlockId,
    LastCommitHash,
    LastResultsHash,
    LatestHeight,
    MaxClockDrift,
    NextKey,
    NextValidatorsHash,
    Numerator,
    PacketDstChannel,
    PacketDstPort,
    PacketSequence,
    PacketSourceClient,
    PacketSrcChannel,
    PacketSrcPort,
    PacketTimeoutHeight,
    PacketTimeoutTimestamp,
    Pagination,
    Parts,
    ProposerAddress,
    PubKey,
    RevisionHeight,
    RevisionNumber,
    Root,
    Round,
    Sequence,
    Sequences,
    Sha256,
    Signature,
    Signatures,
    SignedHeader,
    Status,
    SyncInfo,
    Time,
    Timestamp,
    Total,
    TotalCount,
    TrustLevel,
    TrustingPeriod,
    TxResult,
    Txs,
    TxsResults,
    Type,
    TypeUrl,
    Unchecked,
    ValidatorAddress,
    Validators,
    ValidatorsHash,
    Value,
    Verdicts,
    Verifier,
    Version,
    Votes,
    VotingPower,
    Whole,
}

impl Key {
    ghost use Rattle.rb_import_json.specs.Names.{key_name, camel_name};

    /// The name.
    pub fn name(self) -> &'static str
        ensures { result.now ≡ key_name self }
    {
        match self {
            Key::Acknowledgements => "acknowledgements",
            Key::App => "app",
            Key::AppHash => "app_hash",
            Key::Attributes => "attributes",
            Key::Bad => "bad",
            Key::Block => "block",
            Key::BlockHeight => "block_height",
            Key::BlockId => "block_id",
            Key::BlockIdFlag => "block_id_flag",
            Key::BlockMetas => "block_metas",
            Key::Chain => "chain",
            Key::ChainId => "chain_id",
            Key::ClientState => "client_state",
            Key::Code => "code",
            Key::Commit => "commit",
            Key::Commitments => "commitments",
            Key::Commits => "commits",
            Key::ConsensusHash => "consensus_hash",
            Key::ConsensusState => "consensus_state",
            Key::ConsensusStateHeights => "consensus_state_heights",
            Key::ConsensusStates => "consensus_states",
            Key::DataHash => "data_hash",
            Key::Denominator => "denominator",
            Key::Events => "events",
            Key::EvidenceHash => "evidence_hash",
            Key::FrozenHeight => "frozen_height",
            Key::Good => "good",
            Key::Hash => "hash",
            Key::Header => "header",
            Key::Height => "height",
            Key::LastBlockId => "last_block_id",
            Key::LastCommitHash => "last_commit_hash",
            Key::LastResultsHash => "last_results_hash",
            Key::LatestHeight => "latest_height",
            Key::MaxClockDrift => "max_clock_drift",
            Key::NextKey => "next_key",
            Key::NextValidatorsHash => "next_validators_hash",
            Key::Numerator => "numerator",
            Key::PacketDstChannel => "packet_dst_channel",
            Key::PacketDstPort => "packet_dst_port",
            Key::PacketSequence => "packet_sequence",
            Key::PacketSourceClient => "packet_source_client",
            Key::PacketSrcChannel => "packet_src_channel",
            Key::PacketSrcPort => "packet_src_port",
            Key::PacketTimeoutHeight => "packet_timeout_height",
            Key::PacketTimeoutTimestamp => "packet_timeout_timestamp",
            Key::Pagination => "pagination",
            Key::Parts => "parts",
            Key::ProposerAddress => "proposer_address",
            Key::PubKey => "pub_key",
            Key::RevisionHeight => "revision_height",
            Key::RevisionNumber => "revision_number",
            Key::Root => "root",
            Key::Round => "round",
            Key::Sequence => "sequence",
            Key::Sequences => "sequences",
            Key::Sha256 => "sha256",
            Key::Signature => "signature",
            Key::Signatures => "signatures",
            Key::SignedHeader => "signed_header",
            Key::Status => "status",
            Key::SyncInfo => "sync_info",
            Key::Time => "time",
            Key::Timestamp => "timestamp",
            Key::Total => "total",
            Key::TotalCount => "total_count",
            Key::TrustLevel => "trust_level",
            Key::TrustingPeriod => "trusting_period",
            Key::TxResult => "tx_result",
            Key::Txs => "txs",
            Key::TxsResults => "txs_results",
            Key::Type => "type",
            Key::TypeUrl => "@type",
            Key::Unchecked => "unchecked",
            Key::ValidatorAddress => "validator_address",
            Key::Validators => "validators",
            Key::ValidatorsHash => "validators_hash",
            Key::Value => "value",
            Key::Verdicts => "verdicts",
            Key::Verifier => "verifier",
            Key::Version => "version",
            Key::Votes => "votes",
            Key::VotingPower => "voting_power",
            Key::Whole => "-",
        }
    }

    /// The name in camel case, as protojson writes it, of a field of a client's answers; of others the name.
    pub fn camel_name(self) -> &'static str
        ensures { result.now ≡ camel_name self }
    {
        match self {
            Key::ChainId => "chainId",
            Key::ClientState => "clientState",
            Key::ConsensusState => "consensusState",
            Key::ConsensusStateHeights => "consensusStateHeights",
            Key::ConsensusStates => "consensusStates",
            Key::FrozenHeight => "frozenHeight",
            Key::LatestHeight => "latestHeight",
            Key::MaxClockDrift => "maxClockDrift",
            Key::NextKey => "nextKey",
            Key::NextValidatorsHash => "nextValidatorsHash",
            Key::RevisionHeight => "revisionHeight",
            Key::RevisionNumber => "revisionNumber",
            Key::TrustLevel => "trustLevel",
            Key::TrustingPeriod => "trustingPeriod",
            _ => self.name(),
        }
    }
}

/// Where a value stands in an answer: a part of it, the index from 0 where that is an array of
/// objects, and the field there.
#[derive(Clone, Copy)]
pub struct FieldPath {
    pub part: Segment,
    pub index: Option<usize>,
    pub key: Key,
}

impl fmt::Display for FieldPath {
    ghost use Rattle.std.specs.Prelude.{Some};
    ghost use Rattle.rb_import_json.specs.Names.{place_text};

    ghost output = { λ place. Some (place_text place) };

    fn fmt<W: fmt::Write>(&self, f: &mut fmt::Formatter<W>) -> fmt::Result {
        let path = self.part.path();
        let key = self.key.name();
        match self.index {
            Some(index) => write!(f, "{path}[{index}].{key}"),
            None if path.is_empty() => write!(f, "{key}"),
            None => write!(f, "{path}.{key}"),
        }
    }
}

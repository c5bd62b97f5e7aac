//! Why answers make no script.
ghost use Rattle.std.specs.Prelude.{◌≡◌, Some, None};

use std::alloc::{AllocError, AllocFailed};

/// What doesn't hold between answers.
#[derive(Clone, Copy)]
pub enum CheckErrorName {
    /// An answer of another kind than belongs into the folder.
    WrongFolder,
    /// An answer on another chain.
    OtherChain,
    /// A height of another revision than the chain's.
    OtherRevision,
    /// Two answers tell of one thing.
    TwoAnswers,
    /// Two pages of one height tell different totals.
    OtherTotal,
    /// More validators than there are.
    TooManyValidators,
    /// Validators of which no set is made.
    BadSet,
    /// The set's hash isn't the header's `validators_hash`.
    OtherSet,
    /// The header's hash isn't that of the block that the commit is for.
    OtherHeader,
    /// There is not one signature for each validator.
    SignatureCount,
    /// A signature is of another validator than that of its place.
    OtherSigner,
    /// The state of a client isn't there.
    MissingClientState,
    /// Consensus states of a client are missing.
    MissingConsensusStates,
    /// A record isn't as the header of its height.
    OtherRecord,
    /// Commitments to packets of a path are missing.
    MissingCommitments,
    /// Transactions of a search are missing.
    MissingTransactions,
    /// Packets of two channels, and none is named.
    TwoChannels,
    /// The sending of a packet that was received or cleared isn't there.
    MissingSend,
    /// The receiving of a packet that was acknowledged isn't there.
    MissingReceive,
    /// A verdict tells of another number of votes than the commit has.
    OtherVerdict,
    /// The script is longer than is read.
    ScriptTooBig,
}

impl CheckErrorName {
    ghost use Rattle.rb_import_check.specs.Names.{check_error_name};

    /// The name.
    pub fn name(self) -> &'static str
        ensures { result.now ≡ check_error_name self }
    {
        match self {
            CheckErrorName::WrongFolder => "WrongFolder",
            CheckErrorName::OtherChain => "OtherChain",
            CheckErrorName::OtherRevision => "OtherRevision",
            CheckErrorName::TwoAnswers => "TwoAnswers",
            CheckErrorName::OtherTotal => "OtherTotal",
            CheckErrorName::TooManyValidators => "TooManyValidators",
            CheckErrorName::BadSet => "BadSet",
            CheckErrorName::OtherSet => "OtherSet",
            CheckErrorName::OtherHeader => "OtherHeader",
            CheckErrorName::SignatureCount => "SignatureCount",
            CheckErrorName::OtherSigner => "OtherSigner",
            CheckErrorName::MissingClientState => "MissingClientState",
            CheckErrorName::MissingConsensusStates => "MissingConsensusStates",
            CheckErrorName::OtherRecord => "OtherRecord",
            CheckErrorName::MissingCommitments => "MissingCommitments",
            CheckErrorName::MissingTransactions => "MissingTransactions",
            CheckErrorName::TwoChannels => "TwoChannels",
            CheckErrorName::MissingSend => "MissingSend",
            CheckErrorName::MissingReceive => "MissingReceive",
            CheckErrorName::OtherVerdict => "OtherVerdict",
            CheckErrorName::ScriptTooBig => "ScriptTooBig",
        }
    }

    /// What is wrong, and what to do; of answers that are to be fetched for a height, and of another chain's, `CheckError`
    /// tells which.
    pub fn advice(self) -> &'static str {
        match self {
            CheckErrorName::WrongFolder => {
                "a chain's folder has answers of /commit and /validators, a client's of client_states and consensus_states, a path's of /tx_search, packet_commitments, unreceived_packets and packet_acknowledgements; move the file, or give the chain, the client and the path different identifiers"
            }
            CheckErrorName::OtherChain => "the answer is on another chain",
            CheckErrorName::OtherRevision => {
                "the revision number isn't that of the chain's identifier; fetch the answer again, or mend the setup's chain"
            }
            CheckErrorName::TwoAnswers => "both tell of the same; keep one of the two",
            CheckErrorName::OtherTotal => "the pages tell different totals",
            CheckErrorName::TooManyValidators => {
                "the pages of this height hold more validators than they count: one is there twice, perhaps under another name; keep each page once"
            }
            CheckErrorName::BadSet => "these validators make no set",
            CheckErrorName::OtherSet => {
                "the set's hash isn't the header's validators_hash; fetch /commit and /validators of this height from one node"
            }
            CheckErrorName::OtherHeader => {
                "the hash of the header's fields isn't that of the block that the commit is for, so that one of them isn't the chain's"
            }
            CheckErrorName::SignatureCount => {
                "the commit has another number of signatures than the set has validators"
            }
            CheckErrorName::OtherSigner => {
                "a signature is of another validator than that of its place"
            }
            CheckErrorName::MissingClientState => {
                "the client's state isn't there, and the setup leaves out period_ns, drift_ns or trust; fetch /ibc/core/client/v1/client_states/ID"
            }
            CheckErrorName::MissingConsensusStates => {
                "consensus states are missing; fetch /ibc/core/client/v1/consensus_states/ID, all of its pages,"
            }
            CheckErrorName::OtherRecord => {
                "the client's consensus state has another time, root or next set than the chain's header of this height, so that one of the two isn't the chain's; fetch both again; if it stays, the client may have been given a forged header: don't update it, and submit its misbehaviour"
            }
            CheckErrorName::MissingCommitments => {
                "commitments to packets are missing; fetch /ibc/core/channel/v1/channels/CHANNEL/ports/PORT/packet_commitments of the path's source, all of its pages,"
            }
            CheckErrorName::MissingTransactions =>
                "transactions are missing; fetch all pages of /tx_search",
            CheckErrorName::TwoChannels => {
                "these packets are of two channels; write the source's port and channel into the setup's path"
            }
            CheckErrorName::MissingSend =>
                "no answer has the packet's send_packet; fetch /tx_search with it",
            CheckErrorName::MissingReceive =>
                "no answer has the packet's recv_packet; fetch /tx_search with it",
            CheckErrorName::OtherVerdict => {
                "the verdict on this commit tells of another number of votes than it has; run tools/verify_commits again"
            }
            CheckErrorName::ScriptTooBig =>
                "the script would be too big: more than 16,777,216 bytes, or more entries (1018) or work (1032) than plan takes; take fewer answers",
        }
    }
}

/// The hash of a header's fields, and that of the block that its commit is for.
#[derive(Clone, Copy)]
pub struct HeaderHashes {
    pub header: [u8; 32],
    pub block: [u8; 32],
}

/// What doesn't hold between answers: on which chain, client or path, at which height or sequence,
/// and the files; no file where an answer isn't there. Of a header whose hash is another both hashes, and of an answer on
/// another chain that one.
#[derive(Clone, Copy)]
pub struct CheckError<'a> {
    pub name: CheckErrorName,
    pub object: &'a str,
    pub number: Option<u64>,
    pub file: Option<&'a str>,
    pub other: Option<&'a str>,
    pub hashes: Option<HeaderHashes>,
    pub chain: Option<&'a str>,
}

/// Why answers make no script.
#[derive(Clone, Copy, Debug)]
pub enum ImportError<'a> {
    /// Something doesn't hold between answers.
    CheckError(CheckError<'a>),
    /// A growth was refused.
    NoMemory,
}

impl<'a> ImportError<'a> {
    /// A problem of a chain, a client or a path.
    pub fn of(name: CheckErrorName, object: &'a str) -> ImportError<'a>
        ensures { result ≡ ImportError.CheckError (record { name = name; object = object.entry; number = None; file = None; other = None; hashes = None; chain = None }) }
    {
        ImportError::CheckError(CheckError {
            name,
            object,
            number: None,
            file: None,
            other: None,
            hashes: None,
            chain: None,
        })
    }

    /// A problem in a file, which is of no height or sequence.
    pub fn in_file(name: CheckErrorName, object: &'a str, file: &'a str) -> ImportError<'a>
        ensures { result ≡ ImportError.CheckError (record { name = name; object = object.entry; number = None; file = Some file.entry; other = None; hashes = None; chain = None }) }
    {
        ImportError::CheckError(CheckError {
            name,
            object,
            number: None,
            file: Some(file),
            other: None,
            hashes: None,
            chain: None,
        })
    }

    /// A problem in a file, at a height or a sequence.
    pub fn at(name: CheckErrorName, object: &'a str, number: u64, file: &'a str) -> ImportError<'a>
        ensures { result ≡ ImportError.CheckError (record { name = name; object = object.entry; number = Some number; file = Some file.entry; other = None; hashes = None; chain = None }) }
    {
        ImportError::CheckError(CheckError {
            name,
            object,
            number: Some(number),
            file: Some(file),
            other: None,
            hashes: None,
            chain: None,
        })
    }

    /// A header whose hash isn't that of the block that its commit is for.
    pub fn other_header(
        object: &'a str,
        number: u64,
        file: &'a str,
        hashes: HeaderHashes,
    ) -> ImportError<'a>
        ensures { result ≡ ImportError.CheckError (record { name = CheckErrorName.OtherHeader; object = object.entry; number = Some number; file = Some file.entry; other = None; hashes = Some hashes; chain = None }) }
    {
        ImportError::CheckError(CheckError {
            name: CheckErrorName::OtherHeader,
            object,
            number: Some(number),
            file: Some(file),
            other: None,
            hashes: Some(hashes),
            chain: None,
        })
    }

    /// An answer on another chain, at its height, if it has one.
    pub fn of_other_chain(
        object: &'a str,
        number: Option<u64>,
        file: &'a str,
        chain: &'a str,
    ) -> ImportError<'a>
        ensures { result ≡ ImportError.CheckError (record { name = CheckErrorName.OtherChain; object = object.entry; number = number; file = Some file.entry; other = None; hashes = None; chain = Some chain.entry }) }
    {
        ImportError::CheckError(CheckError {
            name: CheckErrorName::OtherChain,
            object,
            number,
            file: Some(file),
            other: None,
            hashes: None,
            chain: Some(chain),
        })
    }

    /// A problem between two files, which are of no height or sequence.
    pub fn in_files(
        name: CheckErrorName,
        object: &'a str,
        file: &'a str,
        other: &'a str,
    ) -> ImportError<'a>
        ensures { result ≡ ImportError.CheckError (record { name = name; object = object.entry; number = None; file = Some file.entry; other = Some other.entry; hashes = None; chain = None }) }
    {
        ImportError::CheckError(CheckError {
            name,
            object,
            number: None,
            file: Some(file),
            other: Some(other),
            hashes: None,
            chain: None,
        })
    }

    /// A problem between two files, at a height or a sequence.
    pub fn between(
        name: CheckErrorName,
        object: &'a str,
        number: u64,
        file: &'a str,
        other: &'a str,
    ) -> ImportError<'a>
        ensures { result ≡ ImportError.CheckError (record { name = name; object = object.entry; number = Some number; file = Some file.entry; other = Some other.entry; hashes = None; chain = None }) }
    {
        ImportError::CheckError(CheckError {
            name,
            object,
            number: Some(number),
            file: Some(file),
            other: Some(other),
            hashes: None,
            chain: None,
        })
    }
}

impl From<AllocError> for ImportError<'_> {
    ghost use Rattle.std.specs.Prelude.{◌≡◌};
    ghost use Rattle.rb_import_check.specs.declared.error.ImportError.TheVariants.{NoMemory};

    ghost from_gives = { λ _ e. e ≡ NoMemory };

    fn from(_: AllocError) -> Self {
        ImportError::NoMemory
    }
}

impl<T: Drop> From<AllocFailed<T>> for ImportError<'_> {
    ghost use Rattle.std.specs.Prelude.{◌≡◌};
    ghost use Rattle.rb_import_check.specs.declared.error.ImportError.TheVariants.{NoMemory};

    ghost from_gives = { λ _ e. e ≡ NoMemory };

    fn from(_: AllocFailed<T>) -> Self {
        ImportError::NoMemory
    }
}

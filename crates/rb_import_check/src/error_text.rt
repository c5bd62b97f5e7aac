//! What an error says: what doesn't hold, where, in which files, and what to do.
use crate::error::{CheckError, CheckErrorName, HeaderHashes, ImportError};
use crate::hexadecimal::Hexadecimal;
use std::error::Error;
use std::fmt;

impl fmt::Display for ImportError<'_> {
    fn fmt<W: fmt::Write>(&self, f: &mut fmt::Formatter<W>) -> fmt::Result {
        match self {
            ImportError::CheckError(error) => write!(f, "{error}"),
            ImportError::NoMemory => f.write_str("no memory"),
        }
    }
}

impl Error for ImportError<'_> {}

impl fmt::Display for CheckError<'_> {
    fn fmt<W: fmt::Write>(&self, f: &mut fmt::Formatter<W>) -> fmt::Result {
        write_place(f, self)?;
        write_files(f, self.file, self.other)?;
        f.write_str(self.name.advice())?;
        if let Some(chain) = self.chain {
            write!(f, ", {chain}")?;
        }
        if let Some(hashes) = &self.hashes {
            write_hashes(f, hashes)?;
        }
        write_request(f, self.name, self.number)?;
        write_folder(f, self.name, self.object)
    }
}

impl fmt::Debug for CheckError<'_> {
    fn fmt<W: fmt::Write>(&self, f: &mut fmt::Formatter<W>) -> fmt::Result {
        fmt::Display::fmt(self, f)
    }
}

/// Writes a line: what doesn't hold, of which chain, client or path, and at which height or sequence.
fn write_place<W: fmt::Write>(f: &mut fmt::Formatter<W>, error: &CheckError<'_>) -> fmt::Result {
    let name = error.name.name();
    let object = error.object;
    write!(f, "refused {name} at {object}")?;
    if let Some(number) = error.number {
        write!(f, " {number}")?;
    }
    f.write_str("\n")
}

/// Writes the files of an error, where there are some.
fn write_files<W: fmt::Write>(
    f: &mut fmt::Formatter<W>,
    file: Option<&str>,
    other: Option<&str>,
) -> fmt::Result {
    match (file, other) {
        (Some(file), Some(other)) => write!(f, "{file} and {other}: "),
        (Some(file), None) => write!(f, "{file}: "),
        (None, _) => Ok(()),
    }
}

/// Writes the hash of a header, and that of the block that its commit is for, where they differ.
fn write_hashes<W: fmt::Write>(f: &mut fmt::Formatter<W>, hashes: &HeaderHashes) -> fmt::Result {
    let header = Hexadecimal {
        bytes: &hashes.header,
    };
    let block = Hexadecimal {
        bytes: &hashes.block,
    };
    write!(f, " ({header}, and not {block})")
}

/// Writes which answers of a height are to be fetched, where such are wrong or missing; of an answer on another chain that
/// is of no height, what may be wrong with it.
fn write_request<W: fmt::Write>(
    f: &mut fmt::Formatter<W>,
    name: CheckErrorName,
    height: Option<u64>,
) -> fmt::Result {
    match (name, height) {
        (CheckErrorName::OtherTotal | CheckErrorName::BadSet, Some(height)) => write!(
            f,
            "; fetch all pages of /validators?height={height}&per_page=100 again"
        ),
        (CheckErrorName::SignatureCount | CheckErrorName::OtherSigner, Some(height)) => {
            write!(f, "; fetch /commit?height={height} again")
        }
        (CheckErrorName::OtherHeader, Some(height)) => write!(
            f,
            "; fetch /commit?height={height} again, from another node if it stays"
        ),
        (CheckErrorName::OtherChain, Some(_)) => f.write_str(
            "; fetch it from this chain's node, or, if the chain was upgraded, write its new identifier into the setup",
        ),
        (CheckErrorName::OtherChain, None) => f.write_str(
            "; this client follows, or these verdicts are on, another chain than the setup says: is the identifier right? if the chain was upgraded, write its new identifier into the setup",
        ),
        _ => Ok(()),
    }
}

/// Writes into which folder an answer belongs that isn't there: a chain's, a client's and a path's have its identifier; and
/// what else can be done, where it may be gone.
fn write_folder<W: fmt::Write>(
    f: &mut fmt::Formatter<W>,
    name: CheckErrorName,
    folder: &str,
) -> fmt::Result {
    match name {
        CheckErrorName::MissingClientState
        | CheckErrorName::MissingConsensusStates
        | CheckErrorName::MissingCommitments
        | CheckErrorName::MissingTransactions
        | CheckErrorName::MissingReceive => {
            write!(f, " into files *.json of the folder {folder}")
        }
        CheckErrorName::MissingSend => write!(
            f,
            " into files *.json of the folder {folder}, or, where the node keeps it no more, set the path's `first` above it"
        ),
        _ => Ok(()),
    }
}

//! The paths of requests about packets.
ghost use Rattle.std.specs.Prelude.{◌≡◌, ◌++◌};
ghost use Rattle.std.specs.Fmt.{WritesOnOk, decimal};
ghost use Rattle.rb_want_requests.specs.PacketPaths.{encoded, encoded_byte, is_plain, listed, packet_path, part_of, pending_in, search_path, states_path};
ghost use Rattle.rb_want_requests.specs.Pending.{committed_in};

use crate::content::Content;
use crate::request::Query;
use rb_script_types::ChannelEnd;
use std::fmt;

/// How many commitments are asked for on a page.
const COMMITMENTS_A_PAGE: u64 = 1000;

/// How many sequences a request names at most.
pub const SEQUENCES_A_PART: u64 = 100;

/// The sequences of the commitments that a file tells of.
fn committed_in(content: &Content) -> &[u64]
    ensures { result.now ≡ committed_in content.now }
{
    match content {
        Content::Commitments { page, .. } => page.sequences.as_slice(),
        _ => &[],
    }
}

/// Writes the path of a request about packets of an end of a channel: to a gateway (ibc-go), or to a node (CometBFT). Parts
/// are of the commitments that these contents tell of.
pub fn write_packet_path<W: fmt::Write>(
    f: &mut fmt::Formatter<W>,
    query: &Query,
    end: &ChannelEnd,
    contents: &[Content],
) -> fmt::Result
    ensures path { WritesOnOk W.write_str_gives f.old result (packet_path query.now end.now contents.now) f.new }
{
    match query {
        Query::Sent(sequence) => write_search(f, "send_packet", "src", end, *sequence),
        Query::Received(sequence) => write_search(f, "recv_packet", "dst", end, *sequence),
        Query::AckWritten(sequence) => {
            write_search(f, "write_acknowledgement", "dst", end, *sequence)
        }
        _ => {
            f.write_str("/ibc/core/channel/v1/channels/")?;
            write_encoded(f, end.channel.as_str())?;
            f.write_str("/ports/")?;
            write_encoded(f, end.port.as_str())?;
            write_states_path(f, query, contents)
        }
    }
}

/// Writes the rest of the path of a request to a gateway about packets of an end of a channel.
fn write_states_path<W: fmt::Write>(
    f: &mut fmt::Formatter<W>,
    query: &Query,
    contents: &[Content],
) -> fmt::Result
    ensures { WritesOnOk W.write_str_gives f.old result (states_path query.now contents.now) f.new }
{
    match query {
        Query::Commitments { .. } => {
            write!(
                f,
                "/packet_commitments?pagination.limit={COMMITMENTS_A_PAGE}"
            )
        }
        Query::Unreceived { part } => {
            f.write_str("/packet_commitments/")?;
            write_part(f, contents, *part, "", ",")?;
            f.write_str("/unreceived_packets")
        }
        Query::Acknowledgements { part } => {
            f.write_str("/packet_acknowledgements")?;
            write_part(
                f,
                contents,
                *part,
                "?packet_commitment_sequences=",
                "&packet_commitment_sequences=",
            )
        }
        _ => Ok(()),
    }
}

/// Writes the sequences of a part of the pending packets, with what stands before the first and before each other.
fn write_part<W: fmt::Write>(
    f: &mut fmt::Formatter<W>,
    contents: &[Content],
    part: u64,
    first: &str,
    next: &str,
) -> fmt::Result
    ensures { WritesOnOk W.write_str_gives f.old result (listed first.now next.now (part_of part (pending_in contents.now))) f.new }
{
    let end = u128::from(part) * u128::from(SEQUENCES_A_PART);
    let mut before = end.saturating_sub(u128::from(SEQUENCES_A_PART));
    let mut left = end - before;
    let mut separator = first;
    for content in contents {
        for sequence in committed_in(content) {
            if before > 0 {
                before -= 1;
            } else if left > 0 {
                write_sequence(f, separator, *sequence)?;
                separator = next;
                left -= 1;
            }
        }
    }
    Ok(())
}

/// Writes a sequence, with what stands before it.
fn write_sequence<W: fmt::Write>(
    f: &mut fmt::Formatter<W>,
    separator: &str,
    sequence: u64,
) -> fmt::Result
    ensures { WritesOnOk W.write_str_gives f.old result (separator.now ++ decimal sequence) f.new }
{
    write!(f, "{separator}{sequence}")
}

/// Writes the path of a search for transactions with an event on the packet of a sequence, whose end is the packet's source
/// (`src`) or destination (`dst`).
fn write_search<W: fmt::Write>(
    f: &mut fmt::Formatter<W>,
    event: &str,
    side: &str,
    end: &ChannelEnd,
    sequence: u64,
) -> fmt::Result
    ensures { WritesOnOk W.write_str_gives f.old result (search_path event.now side.now end.now sequence) f.new }
{
    write!(f, "/tx_search?query=%22{event}.packet_{side}_channel='")?;
    write_encoded(f, end.channel.as_str())?;
    write!(
        f,
        "'%20AND%20{event}.packet_sequence='{sequence}'%22&per_page=100"
    )
}

/// Writes an identifier in a URL, in which other characters than letters, digits and `-._` stand as their numbers (RFC 3986).
fn write_encoded<W: fmt::Write>(f: &mut fmt::Formatter<W>, id: &str) -> fmt::Result
    ensures { WritesOnOk W.write_str_gives f.old result (encoded id.now) f.new }
{
    for byte in id.as_bytes() {
        write_encoded_byte(f, *byte)?;
    }
    Ok(())
}

/// Writes a byte of an identifier in a URL.
fn write_encoded_byte<W: fmt::Write>(f: &mut fmt::Formatter<W>, byte: u8) -> fmt::Result
    ensures { WritesOnOk W.write_str_gives f.old result (encoded_byte byte) f.new }
{
    if is_plain(byte) {
        f.write_char(char::from(byte))
    } else {
        write!(f, "%{byte:02X}")
    }
}

/// Whether a byte is a letter, a digit or one of `-._`.
#[tactic(auto, unfolding(crate::specs::PacketPaths::is_plain))]
fn is_plain(byte: u8) -> bool
    ensures { result ≡ is_plain byte }
{
    byte.is_ascii_alphanumeric() || b"-._".contains(&byte)
}

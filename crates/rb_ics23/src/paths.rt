//! The paths of packets, which are the keys of the store `ibc`.
ghost use Rattle.std.specs.Prelude.{◌≡◌, IfOk, string_bytes};
ghost use Rattle.rb_ics23.specs.Paths.{commitment_path, acknowledgement_path, receipt_path, next_sequence_path};

use std::alloc::{AllocError, Global};

/// Where the commitment to a packet stands, on the chain that sent it.
pub fn commitment_path(
    alloc: Global,
    port: &str,
    channel: &str,
    sequence: u64,
) -> Result<String, AllocError>
    ensures { IfOk result (λ path. string_bytes path ≡ commitment_path port.now channel.now sequence) }
{
    format!(in alloc; "commitments/ports/{port}/channels/{channel}/sequences/{sequence}")
}

/// Where the acknowledgement of a packet stands, on the chain that received it.
pub fn acknowledgement_path(
    alloc: Global,
    port: &str,
    channel: &str,
    sequence: u64,
) -> Result<String, AllocError>
    ensures { IfOk result (λ path. string_bytes path ≡ acknowledgement_path port.now channel.now sequence) }
{
    format!(in alloc; "acks/ports/{port}/channels/{channel}/sequences/{sequence}")
}

/// Where the receipt of a packet stands, on the chain that received it by an UNORDERED channel.
pub fn receipt_path(
    alloc: Global,
    port: &str,
    channel: &str,
    sequence: u64,
) -> Result<String, AllocError>
    ensures { IfOk result (λ path. string_bytes path ≡ receipt_path port.now channel.now sequence) }
{
    format!(in alloc; "receipts/ports/{port}/channels/{channel}/sequences/{sequence}")
}

/// Where the next sequence that an ORDERED channel receives stands, on the chain that receives.
pub fn next_sequence_path(alloc: Global, port: &str, channel: &str) -> Result<String, AllocError>
    ensures { IfOk result (λ path. string_bytes path ≡ next_sequence_path port.now channel.now) }
{
    format!(in alloc; "nextSequenceRecv/ports/{port}/channels/{channel}")
}

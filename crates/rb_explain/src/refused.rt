//! What refused events tell of.
ghost use Rattle.std.specs.Prelude.{◌≡◌, Some, map, IfOk};
ghost use Rattle.rb_core_model.specs.Seen.{observed};
ghost use Rattle.rb_explain.specs.Subjects.{AreSubjects, subject_of};

use rb_base::Height;
use rb_scan::Sequence;
use rb_script_types::Observation;
use std::alloc::{AllocError, Allocator};

/// What an event tells of: an object, by its place in the script, and what of it.
#[derive(Clone, Copy, PartialEq, Eq)]
pub enum Subject {
    /// A validator set of a chain.
    Set { chain: usize },
    /// A header of a chain.
    Header { chain: usize, height: Height },
    /// A record that a client has stored.
    Stored { client: usize, height: Height },
    /// A packet that was sent on a path.
    Sent { path: usize, sequence: Sequence },
    /// A packet that was received.
    Received { path: usize, sequence: Sequence },
    /// A packet whose acknowledgement was written.
    AckWritten { path: usize, sequence: Sequence },
    /// A packet that was cleared.
    Cleared { path: usize, sequence: Sequence },
    /// A path that was closed.
    Closed { path: usize },
}

/// What an event tells of.
fn subject_of<A: Allocator>(observation: &Observation<A>) -> Subject
    ensures { Some result ≡ subject_of (observed observation.now) }
{
    match observation {
        Observation::SetSeen { chain, .. } => Subject::Set { chain: *chain },
        Observation::HeaderSeen { chain, header } => Subject::Header {
            chain: *chain,
            height: header.height(),
        },
        Observation::StoredSeen { client, height, .. } => Subject::Stored {
            client: *client,
            height: *height,
        },
        Observation::Sent { path, sequence, .. } => Subject::Sent {
            path: *path,
            sequence: *sequence,
        },
        Observation::Received { path, sequence, .. } => Subject::Received {
            path: *path,
            sequence: *sequence,
        },
        Observation::AckWritten { path, sequence, .. } => Subject::AckWritten {
            path: *path,
            sequence: *sequence,
        },
        Observation::Cleared { path, sequence } => Subject::Cleared {
            path: *path,
            sequence: *sequence,
        },
        Observation::Closed { path } => Subject::Closed { path: *path },
    }
}

/// What each event tells of, in their order; nothing where that isn't wanted.
pub(crate) fn subjects_of<A: Allocator + Copy>(
    alloc: A,
    events: &[Observation<A>],
    is_wanted: bool,
) -> Result<Vec<Subject, A>, AllocError>
    ensures { IfOk result (λ subjects. AreSubjects is_wanted (map observed events.now) subjects.items) }
{
    if !is_wanted {
        return Ok(Vec::new(alloc));
    }
    let mut subjects = Vec::with_capacity(alloc, events.len())?;
    for event in events {
        subjects.push(subject_of(event))?;
    }
    Ok(subjects)
}

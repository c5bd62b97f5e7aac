//! Whether two events are the same.
ghost use Rattle.std.specs.Prelude.{◌≡◌, IsTrue};

use crate::same::Same;
use rb_script_types::Observation;

impl Same for Observation {
    fn is_same(&self, other: &Observation) -> bool {
        match self {
            Observation::SetSeen { chain, set } => match other {
                Observation::SetSeen {
                    chain: place,
                    set: members,
                } => chain == place && *set == *members,
                _ => false,
            },
            Observation::HeaderSeen { chain, header } => match other {
                Observation::HeaderSeen {
                    chain: place,
                    header: signed,
                } => chain == place && *header == *signed,
                _ => false,
            },
            Observation::StoredSeen {
                client,
                height,
                record,
            } => match other {
                Observation::StoredSeen {
                    client: place,
                    height: at,
                    record: state,
                } => client == place && height == at && record == state,
                _ => false,
            },
            Observation::Sent {
                path,
                sequence,
                block,
                timeout_height,
                timeout_time,
            } => match other {
                Observation::Sent {
                    path: place,
                    sequence: number,
                    block: sent,
                    timeout_height: height,
                    timeout_time: time,
                } => path == place
                    && sequence == number
                    && block == sent
                    && timeout_height == height
                    && timeout_time == time,
                _ => false,
            },
            Observation::Received {
                path,
                sequence,
                block,
            } => match other {
                Observation::Received {
                    path: place,
                    sequence: number,
                    block: received,
                } => path == place && sequence == number && block == received,
                _ => false,
            },
            Observation::AckWritten {
                path,
                sequence,
                block,
            } => match other {
                Observation::AckWritten {
                    path: place,
                    sequence: number,
                    block: written,
                } => path == place && sequence == number && block == written,
                _ => false,
            },
            Observation::Cleared { path, sequence } => match other {
                Observation::Cleared {
                    path: place,
                    sequence: number,
                } => path == place && sequence == number,
                _ => false,
            },
            Observation::Closed { path } => match other {
                Observation::Closed { path: place } => path == place,
                _ => false,
            },
        }
    }
}

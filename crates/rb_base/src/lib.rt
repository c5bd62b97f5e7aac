//! The values that every layer of ibcplan speaks of: heights, moments and windows, fractions,
//! fees, client options and identifiers; the jobs of a run; and the writer that reports go to.
#![tactic(auto)]

mod amount;
mod error;
mod fees;
mod fraction;
mod gate;
mod identifier;
mod ids;
mod options;
mod sink;
mod ties;
mod votes;
mod window;

pub use amount::{Height, Moment, Period};
pub use error::BaseError;
pub use fees::FeeTable;
pub use fraction::Fraction;
pub use gate::{Gate, OpenGate, Part, WorkItem};
pub use ids::{ChainId, ClientId, PathId};
pub use options::Options;
pub use sink::{Counted, Device, Sink, write_whole};
pub use ties::Ties;
pub use votes::CarriedVotes;
pub use window::Window;

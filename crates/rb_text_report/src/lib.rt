//! The texts of reports and certificates: the report that is written (`push_turn`, `write_report`), the certificate that is
//! read, and the line of a verdict, also as JSON; and when each client of a script expires, by the consensus states that it has stored
//! after the last turn: as lines of text, as metrics, and as a member of a report's JSON (`healths_of`).
#![tactic(auto)]

mod certificate;
mod expiry;
mod health;
mod json;
mod metrics;
mod report;
mod text;
mod verdict;
mod verdict_object;
mod write;

pub use certificate::{Certificate, read_certificate};
pub use expiry::Expiry;
pub use health::{ClientHealth, healths_of};
pub use json::push_clients;
pub use metrics::metrics_of;
pub use report::push_turn;
pub use text::text_of;
pub use verdict::{is_yes, push_verdict};
pub use verdict_object::verdict_json;
pub use write::{first_line, put, write_report};

//! What a document is answered by.
use rb_script_toml::Fault;
use rb_super_turn::TurnReport;

/// What a document is answered by.
#[derive(Drop)]
pub enum Answer {
    /// The report of the turn that it is, by its number from 1.
    Planned { number: u64, report: TurnReport },
    /// Why it is no turn.
    Refused(TurnRefusal),
}

/// Why a document is no turn.
#[derive(Drop)]
pub enum TurnRefusal {
    /// It has a fault; with its number, where it begins with one.
    Fault { number: Option<u64>, fault: Fault },
    /// It begins with another number than this one, which is due.
    OutOfOrder { due: u64 },
}

//! Why an event, a plan or a settlement is refused.
ghost use Rattle.std.specs.Prelude.{◌≡◌};
ghost use Rattle.rb_script_types.specs.Refusal.{number_of, name_of, of_book};

use rb_base::Height;
use rb_book::BookError;
use thiserror::Error;

/// Why something was refused: what the book of a chain refuses, and what the relayer does. What was
/// refused changed nothing.
#[derive(Clone, Copy, Debug, PartialEq, Eq, Error)]
pub enum Refusal {
    /// No known set has the hash that the header gives for its own set.
    #[error("401 UnknownSet")]
    UnknownSet,
    /// The header has more or fewer votes than its own set has members.
    #[error("402 WrongVerdictCount")]
    WrongVerdictCount,
    /// The vote at this index is bad, and no earlier one is.
    #[error("403 BadVote")]
    BadVote(usize),
    /// Another record or header is known at this height.
    #[error("404 Conflict")]
    Conflict(Height),
    /// The known record at this height, the nearest one that does, breaks the order of times; a
    /// lower one is named before a higher one.
    #[error("405 TimeOrder")]
    TimeOrder(Height),
    /// The book, or the path, has as much as it may have.
    #[error("406 Full")]
    Full,
    /// Another known set has the same hash.
    #[error("407 HashClash")]
    HashClash,
    /// There is no such chain, client or path.
    #[error("801 UnknownObject")]
    UnknownObject,
    /// It was made for a view that isn't the present one; so many events were taken in.
    #[error("802 Stale")]
    Stale { front: usize },
    /// The client has an open batch.
    #[error("803 Busy")]
    Busy,
    /// It was taken in already.
    #[error("804 Repeat")]
    Repeat,
    /// Its turn hasn't come, or never will.
    #[error("805 OutOfOrder")]
    OutOfOrder,
    /// The window ends or begins before the present one.
    #[error("806 WindowBack")]
    WindowBack,
    /// Something that it stands on was not scanned.
    #[error("807 NotOwed")]
    NotOwed,
    /// As many events were taken in as may be.
    #[error("808 LogFull")]
    LogFull,
}

impl Refusal {
    /// The refusal's number.
    pub fn number(self) -> u16
        ensures { result ≡ number_of self }
    {
        match self {
            Refusal::UnknownSet => 401,
            Refusal::WrongVerdictCount => 402,
            Refusal::BadVote(_) => 403,
            Refusal::Conflict(_) => 404,
            Refusal::TimeOrder(_) => 405,
            Refusal::Full => 406,
            Refusal::HashClash => 407,
            Refusal::UnknownObject => 801,
            Refusal::Stale { .. } => 802,
            Refusal::Busy => 803,
            Refusal::Repeat => 804,
            Refusal::OutOfOrder => 805,
            Refusal::WindowBack => 806,
            Refusal::NotOwed => 807,
            Refusal::LogFull => 808,
        }
    }

    /// The refusal's name.
    pub fn name(self) -> &'static str
        ensures { result.now ≡ name_of self }
    {
        match self {
            Refusal::UnknownSet => "UnknownSet",
            Refusal::WrongVerdictCount => "WrongVerdictCount",
            Refusal::BadVote(_) => "BadVote",
            Refusal::Conflict(_) => "Conflict",
            Refusal::TimeOrder(_) => "TimeOrder",
            Refusal::Full => "Full",
            Refusal::HashClash => "HashClash",
            Refusal::UnknownObject => "UnknownObject",
            Refusal::Stale { .. } => "Stale",
            Refusal::Busy => "Busy",
            Refusal::Repeat => "Repeat",
            Refusal::OutOfOrder => "OutOfOrder",
            Refusal::WindowBack => "WindowBack",
            Refusal::NotOwed => "NotOwed",
            Refusal::LogFull => "LogFull",
        }
    }

    /// What a book refuses; none for want of memory, which says nothing of what was given.
    pub fn of_book(error: BookError) -> Option<Refusal>
        ensures { result ≡ of_book error }
    {
        match error {
            BookError::UnknownSet => Some(Refusal::UnknownSet),
            BookError::WrongVerdictCount => Some(Refusal::WrongVerdictCount),
            BookError::BadVote(index) => Some(Refusal::BadVote(index)),
            BookError::Conflict(height) => Some(Refusal::Conflict(height)),
            BookError::TimeOrder(height) => Some(Refusal::TimeOrder(height)),
            BookError::Full => Some(Refusal::Full),
            BookError::HashClash => Some(Refusal::HashClash),
            BookError::NoMemory => None,
        }
    }
}

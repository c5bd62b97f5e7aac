//! The window in which updates may be submitted.
ghost use Rattle.std.specs.Prelude.{◌≡◌, ◌≤◌, ◌<◌, ◌↔◌, IsErrOf};
ghost use Rattle.std.specs.Result.{OkIff};

use crate::amount::Moment;
use crate::error::BaseError;
use std::marker::Model;

/// The moments from one to another, both included.
#[derive(Clone, Copy, Debug, PartialEq, Eq)]
pub struct Window {
    from: Moment,
    until: Moment,
}

impl Model for Window {
    ghost use Rattle.std.specs.Prelude.{◌≤◌};
    ghost use Rattle.rb_base.specs.Window.{Span};

    ghost Value = { Span };

    ghost view = { λ w. record { from = w.from; until = w.until } };

    ghost invariant = { λ w. w.from ≤ w.until };

    ghost inverse = { λ s. record { from = s.from; until = s.until } };
}

impl Window {
    /// The moments from `from` to `until`; `WindowOrder` where `until` is before `from`.
    pub fn new(from: Moment, until: Moment) -> Result<Window, BaseError>
        ensures ok { OkIff result (from ≤ until) (record { from = from; until = until }) }
        ensures window_order { IsErrOf result BaseError.WindowOrder ↔ (until < from) }
    {
        if until < from {
            return Err(BaseError::WindowOrder);
        }
        Ok(Window { from, until })
    }

    /// The window of one moment.
    pub fn at(moment: Moment) -> Window
        ensures { result ≡ record { from = moment; until = moment } }
    {
        Window {
            from: moment,
            until: moment,
        }
    }

    /// The first moment.
    pub fn from(&self) -> Moment
        ensures value { result ≡ self.now.from }
        ensures order { self.now.from ≤ self.now.until }
    {
        self.from
    }

    /// The last moment.
    pub fn until(&self) -> Moment
        ensures value { result ≡ self.now.until }
        ensures order { self.now.from ≤ self.now.until }
    {
        self.until
    }
}

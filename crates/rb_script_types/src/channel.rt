//! The ends of a channel (ICS 4).
use crate::end_id::EndId;
use std::fmt;

/// An end of a channel: the port that it is bound to, and the identifier of the channel on that end's chain (ICS 4).
#[derive(Clone, Copy, PartialEq, Eq)]
pub struct ChannelEnd {
    pub port: EndId,
    pub channel: EndId,
}

/// Shown as `port/channel`.
impl fmt::Display for ChannelEnd {
    ghost use Rattle.std.specs.Prelude.{Some};
    ghost use Rattle.rb_script_types.specs.Channels.{end_text};

    ghost output = { λ end. Some (end_text end) };

    fn fmt<W: fmt::Write>(&self, f: &mut fmt::Formatter<W>) -> fmt::Result {
        let ChannelEnd { port, channel } = *self;
        write!(f, "{port}/{channel}")
    }
}

/// The channel of a path: the end on the path's source, and the other one, on its destination, where it is named
/// (ICS 4: the counterparty).
#[derive(Clone, Copy, PartialEq, Eq)]
pub struct Channel {
    pub source: ChannelEnd,
    pub counterparty: Option<ChannelEnd>,
}

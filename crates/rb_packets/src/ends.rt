//! The ends of a path's channel.
ghost use Rattle.std.specs.Prelude.{◌≡◌};
ghost use Rattle.rb_packets.specs.Ends.{ends_in};

use rb_script_types::{Channel, ChannelEnd};

/// Both ends of a channel (ICS 4): the one that packets are sent from, and the one that they go to.
#[derive(Clone, Copy, PartialEq, Eq)]
pub struct Ends {
    pub source: ChannelEnd,
    pub dest: ChannelEnd,
}

/// Both ends of a channel, if both are named.
pub fn ends_of(channel: Option<Channel>) -> Option<Ends>
    ensures { result ≡ ends_in channel }
{
    let Channel {
        source,
        counterparty,
    } = channel?;
    let dest = counterparty?;
    Some(Ends { source, dest })
}

ghost use Rattle.std.specs.Prelude.{◌+◌, ◌<◌, ◌^◌, IfOk};

use crate::same::assert_same;
use rb_base::{Height, Moment, Part};
use rb_scan::{
    Kind, Order, Packet, PacketMsg, PathView, Sequence, is_path, owed, owed_part, ready,
    ready_beyond, wanted,
};
use std::alloc::Global;
use std::process::Abort;
use std::test::Fail;

/// A packet in numbers; 0 stands for none, and the timeout time is in seconds.
#[derive(Clone, Copy)]
struct Seen {
    sequence: u64,
    sent: u64,
    timeout_height: u64,
    timeout_seconds: u64,
    received: u64,
    written: u64,
    cleared: bool,
    receive_settled: bool,
    outcome_settled: bool,
}

const NOTHING: Seen = Seen {
    sequence: 0,
    sent: 0,
    timeout_height: 0,
    timeout_seconds: 0,
    received: 0,
    written: 0,
    cleared: false,
    receive_settled: false,
    outcome_settled: false,
};

/// A message in numbers: its kind, sequence and floor.
type Message = (Kind, u64, u64);

/// A path and the messages that it owes, in numbers; its destination's records are heights and
/// seconds.
struct Row {
    order: Order,
    first: u64,
    packets: &'static [Seen],
    records: &'static [(u64, u64)],
    owed: &'static [Message],
}

fn second(number: u64) -> Result<Moment, Fail> {
    let nanoseconds = u128::from(number).saturating_mul(1_000_000_000);
    Ok(Moment::new(nanoseconds).ok_or("moment")?)
}

/// 0 stands for none.
fn timeout_of(seconds: u64) -> Result<Option<Moment>, Fail> {
    if seconds == 0 {
        return Ok(None);
    }
    Ok(Some(second(seconds)?))
}

fn block(number: u64) -> Result<Height, Fail>
    ensures { IfOk result (λ block. block + 1 < 2 ^ 63) }
{
    if number >= 1000 {
        return Err(Fail::from("block"));
    }
    Ok(Height::new(number).ok_or("block")?)
}

fn number_of(sequence: u64) -> Result<Sequence, Fail> {
    Ok(Sequence::new(sequence).ok_or("sequence")?)
}

/// The packet as it is sent.
fn sent_packet(seen: &Seen) -> Result<Packet, Fail> {
    let timeout_time = timeout_of(seen.timeout_seconds)?;
    let sent = block(seen.sent)?;
    Ok(Packet::new(
        number_of(seen.sequence)?,
        sent,
        None,
        Height::new(seen.timeout_height),
        timeout_time,
    ))
}

/// The packet, received at a block; 0 stands for none.
fn with_received(packet: Packet, number: u64) -> Result<Packet, Fail> {
    if number == 0 {
        return Ok(packet);
    }
    Ok(packet.with_received(block(number)?))
}

/// The packet, its acknowledgement written at a block; 0 stands for none.
fn with_written(packet: Packet, number: u64) -> Result<Packet, Fail> {
    if number == 0 {
        return Ok(packet);
    }
    Ok(packet.with_written(block(number)?, None))
}

fn with_cleared(packet: Packet, is_cleared: bool) -> Packet {
    if is_cleared {
        packet.with_cleared()
    } else {
        packet
    }
}

fn with_settled(packet: Packet, seen: &Seen) -> Packet {
    let packet = if seen.receive_settled {
        packet.with_receive_settled()
    } else {
        packet
    };
    if seen.outcome_settled {
        packet.with_outcome_settled()
    } else {
        packet
    }
}

fn packet_of(seen: &Seen) -> Result<Packet, Fail> {
    let received = with_received(sent_packet(seen)?, seen.received)?;
    let written = with_written(received, seen.written)?;
    Ok(with_settled(with_cleared(written, seen.cleared), seen))
}

/// From when on a packet may have expired: from the first moment on where it has a timeout height, else from
/// its timeout time on.
fn expiry_of(seen: &Seen) -> Result<Option<Moment>, Fail> {
    if seen.timeout_height > 0 {
        return Ok(Some(second(0)?));
    }
    match seen.timeout_seconds {
        0 => Ok(None),
        seconds => Ok(Some(second(seconds)?)),
    }
}

/// From when on a message for one of these packets may be in vain: a receive alone, where its packet has
/// expired.
fn expires_of(packets: &[Seen], message: Message) -> Result<Option<Moment>, Fail> {
    let (kind, sequence, _) = message;
    if kind != Kind::Receive {
        return Ok(None);
    }
    match packets.iter().find(|seen| seen.sequence == sequence) {
        Some(seen) => expiry_of(seen),
        None => Ok(None),
    }
}

/// The time from which on the destination takes no such message, of a receive alone.
fn timeout_for(packets: &[Seen], message: Message) -> Result<Option<Moment>, Fail> {
    let (kind, sequence, _) = message;
    if kind != Kind::Receive {
        return Ok(None);
    }
    match packets.iter().find(|seen| seen.sequence == sequence) {
        Some(seen) => timeout_of(seen.timeout_seconds),
        None => Ok(None),
    }
}

fn message_of(
    message: Message,
    expires: Option<Moment>,
    timeout: Option<Moment>,
) -> Result<PacketMsg, Fail> {
    let (kind, sequence, floor) = message;
    let sequence = number_of(sequence)?;
    let floor = Height::new(floor).ok_or("floor")?;
    Ok(PacketMsg {
        kind,
        sequence,
        floor,
        expires,
        since: None,
        timeout,
    })
}

/// These messages, for packets of which these are some.
fn messages_of(
    alloc: Global,
    packets: &[Seen],
    messages: &[Message],
) -> Result<Vec<PacketMsg>, Fail> {
    let mut list = Vec::new(alloc);
    for message in messages {
        let expires = expires_of(packets, *message)?;
        let timeout = timeout_for(packets, *message)?;
        list.push(message_of(*message, expires, timeout)?)?;
    }
    Ok(list)
}

fn packets_of(alloc: Global, row: &Row) -> Result<Vec<Packet>, Fail> {
    let mut packets = Vec::new(alloc);
    for seen in row.packets {
        packets.push(packet_of(seen)?)?;
    }
    Ok(packets)
}

fn record_of((height, seconds): (u64, u64)) -> Result<(Height, Moment), Fail> {
    Ok((block(height)?, second(seconds)?))
}

fn records_of(alloc: Global, row: &Row) -> Result<Vec<(Height, Moment)>, Fail> {
    let mut records = Vec::new(alloc);
    for record in row.records {
        records.push(record_of(*record)?)?;
    }
    Ok(records)
}

fn view_of(alloc: Global, row: &Row, closed: bool) -> Result<PathView, Fail> {
    let first = number_of(row.first)?;
    let packets = packets_of(alloc, row)?;
    let records = records_of(alloc, row)?;
    if !is_path(first, &packets, &records) {
        return Err(Fail::from("no path"));
    }
    Ok(PathView::new(row.order, first, packets, closed, records)?)
}

const ROWS: &[Row] = &[
    Row {
        order: Order::Ordered,
        first: 4,
        packets: &[
            Seen {
                sequence: 4,
                sent: 8,
                ..NOTHING
            },
            Seen {
                sequence: 5,
                sent: 8,
                ..NOTHING
            },
            Seen {
                sequence: 7,
                sent: 9,
                ..NOTHING
            },
        ],
        records: &[],
        owed: &[(Kind::Receive, 4, 9), (Kind::Receive, 5, 9)],
    },
    Row {
        order: Order::Ordered,
        first: 4,
        packets: &[
            Seen {
                sequence: 4,
                sent: 8,
                timeout_height: 10,
                ..NOTHING
            },
            Seen {
                sequence: 5,
                sent: 8,
                ..NOTHING
            },
            Seen {
                sequence: 7,
                sent: 9,
                ..NOTHING
            },
        ],
        records: &[(9, 90), (10, 100)],
        owed: &[(Kind::Timeout, 4, 10)],
    },
    Row {
        order: Order::Ordered,
        first: 4,
        packets: &[
            Seen {
                sequence: 4,
                sent: 8,
                timeout_height: 10,
                ..NOTHING
            },
            Seen {
                sequence: 5,
                sent: 8,
                ..NOTHING
            },
            Seen {
                sequence: 7,
                sent: 9,
                ..NOTHING
            },
        ],
        records: &[(9, 90)],
        owed: &[(Kind::Receive, 4, 9), (Kind::Receive, 5, 9)],
    },
    Row {
        order: Order::Ordered,
        first: 3,
        packets: &[
            Seen {
                sequence: 4,
                sent: 8,
                ..NOTHING
            },
            Seen {
                sequence: 5,
                sent: 8,
                ..NOTHING
            },
            Seen {
                sequence: 7,
                sent: 9,
                ..NOTHING
            },
        ],
        records: &[],
        owed: &[],
    },
    Row {
        order: Order::Ordered,
        first: 5,
        packets: &[
            Seen {
                sequence: 5,
                sent: 8,
                ..NOTHING
            },
            Seen {
                sequence: 6,
                sent: 8,
                receive_settled: true,
                ..NOTHING
            },
            Seen {
                sequence: 7,
                sent: 9,
                ..NOTHING
            },
        ],
        records: &[],
        owed: &[(Kind::Receive, 5, 9)],
    },
    Row {
        order: Order::Ordered,
        first: 6,
        packets: &[
            Seen {
                sequence: 6,
                sent: 8,
                receive_settled: true,
                ..NOTHING
            },
            Seen {
                sequence: 7,
                sent: 8,
                written: 21,
                cleared: true,
                ..NOTHING
            },
            Seen {
                sequence: 8,
                sent: 9,
                ..NOTHING
            },
        ],
        records: &[],
        owed: &[(Kind::Receive, 8, 10)],
    },
    Row {
        order: Order::Ordered,
        first: 6,
        packets: &[
            Seen {
                sequence: 6,
                sent: 8,
                received: 20,
                cleared: true,
                ..NOTHING
            },
            Seen {
                sequence: 7,
                sent: 8,
                received: 20,
                written: 21,
                ..NOTHING
            },
            Seen {
                sequence: 8,
                sent: 8,
                received: 20,
                written: 22,
                ..NOTHING
            },
            Seen {
                sequence: 9,
                sent: 8,
                received: 20,
                ..NOTHING
            },
            Seen {
                sequence: 10,
                sent: 8,
                received: 20,
                written: 23,
                ..NOTHING
            },
        ],
        records: &[],
        owed: &[(Kind::Acknowledge, 7, 22), (Kind::Acknowledge, 8, 23)],
    },
    Row {
        order: Order::Unordered,
        first: 1,
        packets: &[Seen {
            sequence: 1,
            sent: 8,
            timeout_height: 10,
            timeout_seconds: 85,
            ..NOTHING
        }],
        records: &[(9, 90), (10, 100)],
        owed: &[(Kind::Timeout, 1, 9)],
    },
    Row {
        order: Order::Unordered,
        first: 1,
        packets: &[Seen {
            sequence: 1,
            sent: 8,
            timeout_height: 10,
            timeout_seconds: 95,
            ..NOTHING
        }],
        records: &[(9, 90), (10, 100)],
        owed: &[(Kind::Timeout, 1, 10)],
    },
    Row {
        order: Order::Unordered,
        first: 1,
        packets: &[Seen {
            sequence: 1,
            sent: 8,
            timeout_height: 10,
            timeout_seconds: 95,
            ..NOTHING
        }],
        records: &[],
        owed: &[(Kind::Receive, 1, 9)],
    },
    Row {
        order: Order::Unordered,
        first: 1,
        packets: &[
            Seen {
                sequence: 1,
                sent: 8,
                timeout_seconds: 100,
                ..NOTHING
            },
            Seen {
                sequence: 2,
                sent: 8,
                timeout_height: 11,
                timeout_seconds: 101,
                ..NOTHING
            },
        ],
        records: &[(9, 90), (10, 100)],
        owed: &[(Kind::Receive, 2, 9), (Kind::Timeout, 1, 10)],
    },
    Row {
        order: Order::Unordered,
        first: 1,
        packets: &[
            Seen {
                sequence: 1,
                sent: 8,
                timeout_height: 10,
                ..NOTHING
            },
            Seen {
                sequence: 2,
                sent: 8,
                timeout_height: 10,
                receive_settled: true,
                ..NOTHING
            },
            Seen {
                sequence: 3,
                sent: 8,
                received: 20,
                written: 21,
                outcome_settled: true,
                ..NOTHING
            },
            Seen {
                sequence: 4,
                sent: 8,
                cleared: true,
                ..NOTHING
            },
        ],
        records: &[(10, 100)],
        owed: &[(Kind::Timeout, 1, 10)],
    },
    Row {
        order: Order::Unordered,
        first: 1,
        packets: &[
            Seen {
                sequence: 2,
                sent: 8,
                ..NOTHING
            },
            Seen {
                sequence: 7,
                sent: 8,
                received: 20,
                written: 21,
                ..NOTHING
            },
            Seen {
                sequence: 9,
                sent: 8,
                ..NOTHING
            },
        ],
        records: &[],
        owed: &[
            (Kind::Receive, 2, 9),
            (Kind::Receive, 9, 9),
            (Kind::Acknowledge, 7, 22),
        ],
    },
];

/// What a path owes.
fn check_owed(
    rt: &impl Abort,
    view: &PathView,
    index: usize,
    wanted: &[PacketMsg],
) -> Result<(), Fail> {
    let list = owed(view)?;
    assert_same(rt, &index, list.as_slice(), wanted);
    Ok(())
}

/// What it owes in its two parts.
fn check_parts(
    rt: &impl Abort,
    view: &PathView,
    index: usize,
    wanted: &[PacketMsg],
) -> Result<(), Fail> {
    let mut parts = owed_part(view, Part::Packets)?;
    parts.extend_from_slice(&owed_part(view, Part::Channel)?)?;
    assert_same(rt, &index, parts.as_slice(), wanted);
    Ok(())
}

/// A path owes this, and is equal to the view of another owner.
fn check_view(
    rt: &impl Abort,
    view: &PathView,
    index: usize,
    wanted: &[PacketMsg],
) -> Result<(), Fail> {
    check_owed(rt, view, index, wanted)?;
    check_parts(rt, view, index, wanted)?;
    assert!(rt; view.share()? == *view, "row {index}");
    Ok(())
}

fn check_path(rt: &impl Abort, alloc: Global, index: usize, row: &Row) -> Result<(), Fail> {
    let wanted = messages_of(alloc, row.packets, row.owed)?;
    let view = view_of(alloc, row, false)?;
    check_view(rt, &view, index, wanted.as_slice())
}

/// Once a row's path is closed it owes nothing, and is another one.
fn check_closed(rt: &impl Abort, alloc: Global, index: usize, row: &Row) -> Result<(), Fail> {
    let closed = view_of(alloc, row, true)?;
    check_owed(rt, &closed, index, &[])?;
    let open = view_of(alloc, row, false)?;
    assert!(rt; closed != open, "row {index}");
    Ok(())
}

/// Receives of consecutive sequences up to a gap; one timeout in place of them; acknowledgements
/// up to one that isn't written; what is finished, cleared or settled is owed no more; a closed
/// path owes nothing.
#[test]
fn lists_what_is_owed(rt: HostRuntime) -> Result<(), Fail> {
    for (index, row) in ROWS.iter().enumerate() {
        check_path(&rt, rt.alloc(), index, row)?;
        check_closed(&rt, rt.alloc(), index, row)?;
    }
    Ok(())
}

const RECEIVES: &[Message] = &[
    (Kind::Receive, 4, 9),
    (Kind::Receive, 5, 12),
    (Kind::Receive, 6, 10),
];

const KINDS: &[Message] = &[
    (Kind::Receive, 4, 11),
    (Kind::Receive, 5, 9),
    (Kind::Acknowledge, 1, 10),
    (Kind::Acknowledge, 2, 11),
    (Kind::Acknowledge, 3, 8),
    (Kind::Timeout, 6, 11),
    (Kind::Timeout, 7, 7),
];

/// A list, its order, how far the client reaches (0: nowhere), the places of what is ready, and the
/// height that this wants.
type Reach = (&'static [Message], Order, u64, &'static [usize], u64);

const REACHES: &[Reach] = &[
    (RECEIVES, Order::Ordered, 10, &[0], 9),
    (RECEIVES, Order::Unordered, 10, &[0, 2], 10),
    (RECEIVES, Order::Unordered, 0, &[], 0),
    (RECEIVES, Order::Ordered, 12, &[0, 1, 2], 12),
    (KINDS, Order::Ordered, 10, &[2, 6], 10),
    (KINDS, Order::Unordered, 10, &[1, 2, 4, 6], 10),
];

/// The messages at these places.
fn chosen(alloc: Global, list: &[PacketMsg], places: &[usize]) -> Result<Vec<PacketMsg>, Fail> {
    let mut messages = Vec::new(alloc);
    for place in places {
        messages.push(*list.get(*place).ok_or("place")?)?;
    }
    Ok(messages)
}

fn check_ready(rt: &impl Abort, alloc: Global, index: usize, reach: &Reach) -> Result<(), Fail> {
    let (list, order, reach, kept, floor) = *reach;
    let list = messages_of(alloc, &[], list)?;
    let expected = chosen(alloc, &list, kept)?;
    let ready = ready(alloc, &list, order, Height::new(reach))?;
    assert_same(rt, &index, ready.as_slice(), expected.as_slice());
    assert_same(rt, &index, wanted(&ready), Height::new(floor));
    Ok(())
}

/// In an ORDERED list a receive waits for all receives before it, and so an acknowledgement for
/// acknowledgements.
#[test]
fn keeps_what_is_ready(rt: HostRuntime) -> Result<(), Fail> {
    for (index, reach) in REACHES.iter().enumerate() {
        check_ready(&rt, rt.alloc(), index, reach)?;
    }
    Ok(())
}

/// A list, its order, how far the client reaches without and with an update (0: nowhere), and the places of
/// what only an update brings across.
type Beyond = (&'static [Message], Order, u64, u64, &'static [usize]);

const BEYOND: &[Beyond] = &[
    (RECEIVES, Order::Ordered, 9, 12, &[1, 2]),
    (RECEIVES, Order::Ordered, 10, 12, &[1, 2]),
    (RECEIVES, Order::Unordered, 10, 12, &[1]),
    (RECEIVES, Order::Unordered, 10, 0, &[]),
    (RECEIVES, Order::Ordered, 0, 10, &[0]),
    (KINDS, Order::Ordered, 10, 11, &[0, 1, 3, 4, 5]),
    (KINDS, Order::Unordered, 9, 10, &[2]),
];

fn check_beyond(rt: &impl Abort, alloc: Global, index: usize, row: &Beyond) -> Result<(), Fail> {
    let (list, order, near, reach, kept) = *row;
    let list = messages_of(alloc, &[], list)?;
    let expected = chosen(alloc, &list, kept)?;
    let beyond = ready_beyond(alloc, &list, order, Height::new(near), Height::new(reach))?;
    assert_same(rt, &index, beyond.as_slice(), expected.as_slice());
    Ok(())
}

/// What only an update brings across is what is ready with it and isn't without it, also where an ORDERED
/// run is broken by a message that is far.
#[test]
fn tells_what_needs_an_update(rt: HostRuntime) -> Result<(), Fail> {
    for (index, row) in BEYOND.iter().enumerate() {
        check_beyond(&rt, rt.alloc(), index, row)?;
    }
    Ok(())
}

/// Times that do not rise, and a packet below the first, make no path.
#[test]
fn knows_paths(rt: HostRuntime) -> Result<(), Fail> {
    let sequence = number_of(12)?;
    let records = [record_of((9, 90))?, record_of((10, 90))?];
    assert!(rt; is_path(sequence, &[], &records[..1]));
    assert!(rt; !is_path(sequence, &[], &records));
    let below = Packet::new(number_of(11)?, block(8)?, None, None, None);
    assert!(rt; !is_path(sequence, &[below], &[]));
    Ok(())
}

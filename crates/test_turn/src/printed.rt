//! The text that the printer of scripts writes.
use rb_script_read::read_script;
use rb_script_text::{TextError, text_of_script};
use std::process::Abort;
use std::test::Fail;

/// A script of version 4 with each kind of event, a set that is seen twice, and keys that clients of a chain share.
const GIVEN: &str = "version = 4
chain = [{ id = 'a' }, { id = 'b', defaults = { period_ns = 900, drift_ns = 7, fee = [100, 1, 2], gas = [90, 3, 4] } }]
client = [
  { id = 'c0', host = 'b', of = 'a', period_ns = 900, drift_ns = 7, refresh_ns = 300, fee = [100, 1, 2], gas = [90, 3, 4], limits = [1000, 10, 5] },
  { id = 'c1', host = 'a', of = 'b', refresh_ns = 0, limits = [1000, 10, 5], trust = [2, 3], votes = 'needed' },
]
path = [
  { id = 'p0', source = 'a', dest = 'b', order = 'ordered', first = 3, forward = 'c0', back = 'c1', gas = [5, 6, 7], wait_ns = [1, 2, 3], port = 'transfer', channel = 'channel-0', counterparty_port = 'transfer', counterparty_channel = 'channel-7' },
  { id = 'p1', source = 'b', dest = 'a', order = 'unordered', forward = 'c1', back = 'c0', gas = [5, 6, 7] },
]
[[turn]]
from = '2026-11-01T12:00:00+01:00'
until = '2026-11-01T11:00:00.5Z'
window = [{ host = 'b', from = '2026-11-01T11:00:00Z', until = '2026-11-01T11:00:01Z' }]
goal = [{ client = 'c1', exactly = 9 }]
event = [
  { kind = 'set', chain = 'a', name = 'own', validators = [['0101010101010101010101010101010101010101010101010101010101010101', 1], ['020202020202020202020202020202020202020202020202020202020202020202', 2]] },
  { kind = 'set', chain = 'a', name = 'again', validators = [['0101010101010101010101010101010101010101010101010101010101010101', 1], ['020202020202020202020202020202020202020202020202020202020202020202', 2]] },
  { kind = 'header', chain = 'a', height = 5, time = '2026-11-01T10:59:00Z', root = '0303030303030303030303030303030303030303030303030303030303030303', set = 'again', next = '0404040404040404040404040404040404040404040404040404040404040404', votes = 'CB' },
  { kind = 'stored', client = 'c0', height = 4, time = '2026-11-01T10:58:00Z', next = 'own' },
  { kind = 'stored', client = 'c1', height = 4, time = '2026-11-01T10:58:00Z', next = '0404040404040404040404040404040404040404040404040404040404040404' },
]
settle = [{ client = 'c0', batch = 1, done = 2 }]
taken = true
[[turn]]
from = '2026-11-01T11:00:01Z'
until = '2026-11-01T11:00:02Z'
goal = [{ client = 'c0', at_least = 8 }]
[[turn]]
from = '2026-11-01T11:00:03Z'
until = '2026-11-01T11:00:04Z'
event = [
  { kind = 'header', chain = 'a', height = 6, time = '2026-11-01T11:00:02Z', set = 'own', next = 'own', votes = 'AN' },
  { kind = 'sent', path = 'p0', seq = 3, height = 5, time = '2026-11-01T10:59:00Z', timeout_height = 80, timeout_time = '2026-11-01T12:00:00Z' },
  { kind = 'sent', path = 'p0', seq = 4, height = 5 },
  { kind = 'received', path = 'p0', seq = 3, height = 7 },
  { kind = 'ack', path = 'p0', seq = 3, height = 7, time = '2026-11-01T10:59:30Z' },
  { kind = 'cleared', path = 'p1', seq = 1 },
  { kind = 'closed', path = 'p0' },
]
";

/// The same as it is printed.
const PRINTED: &str = "# two chains
version = 4
chain = [
  { id = \"a\" },
  { id = \"b\" },
]

[[client]]
id = \"c0\"
host = \"b\"
of = \"a\"
period_ns = 900
drift_ns = 7
fee = [100, 1, 2]
gas = [90, 3, 4]
limits = [1000, 10, 5]
trust = [1, 3]

[[client]]
id = \"c1\"
host = \"a\"
of = \"b\"
period_ns = 900
drift_ns = 7
refresh_ns = 0
fee = [100, 1, 2]
gas = [90, 3, 4]
limits = [1000, 10, 5]
trust = [2, 3]
votes = \"needed\"

[[path]]
id = \"p0\"
source = \"a\"
dest = \"b\"
order = \"ordered\"
first = 3
forward = \"c0\"
back = \"c1\"
gas = [5, 6, 7]
port = \"transfer\"
channel = \"channel-0\"
counterparty_port = \"transfer\"
counterparty_channel = \"channel-7\"
wait_ns = [1, 2, 3]

[[path]]
id = \"p1\"
source = \"b\"
dest = \"a\"
order = \"unordered\"
first = 1
forward = \"c1\"
back = \"c0\"
gas = [5, 6, 7]
wait_ns = [0, 0, 0]

[[turn]]
from = \"2026-11-01T11:00:00Z\"
until = \"2026-11-01T11:00:00.5Z\"
window = [
  { host = \"b\", from = \"2026-11-01T11:00:00Z\", until = \"2026-11-01T11:00:01Z\" },
]
goal = [
  { client = \"c1\", exactly = 9 },
]
event = [
  { kind = \"set\", chain = \"a\", name = \"33030a4a534a202aeb43b9d6da5cfd78\", validators = [[\"020202020202020202020202020202020202020202020202020202020202020202\", 2], [\"0101010101010101010101010101010101010101010101010101010101010101\", 1], ] },
  { kind = \"set\", chain = \"a\", name = \"again-0-1\", validators = [[\"020202020202020202020202020202020202020202020202020202020202020202\", 2], [\"0101010101010101010101010101010101010101010101010101010101010101\", 1], ] },
  { kind = \"header\", chain = \"a\", height = 5, time = \"2026-11-01T10:59:00Z\", root = \"0303030303030303030303030303030303030303030303030303030303030303\", set = \"33030a4a534a202aeb43b9d6da5cfd78\", next = \"0404040404040404040404040404040404040404040404040404040404040404\", votes = \"CB\" },
  { kind = \"stored\", client = \"c0\", height = 4, time = \"2026-11-01T10:58:00Z\", root = \"0000000000000000000000000000000000000000000000000000000000000000\", next = \"33030a4a534a202aeb43b9d6da5cfd78\" },
  { kind = \"stored\", client = \"c1\", height = 4, time = \"2026-11-01T10:58:00Z\", root = \"0000000000000000000000000000000000000000000000000000000000000000\", next = \"0404040404040404040404040404040404040404040404040404040404040404\" },
]
settle = [
  { client = \"c0\", batch = 1, done = 2 },
]
taken = true

[[turn]]
from = \"2026-11-01T11:00:01Z\"
until = \"2026-11-01T11:00:02Z\"
goal = [
  { client = \"c0\", at_least = 8 },
]

[[turn]]
from = \"2026-11-01T11:00:03Z\"
until = \"2026-11-01T11:00:04Z\"
goal = [
]
event = [
  { kind = \"header\", chain = \"a\", height = 6, time = \"2026-11-01T11:00:02Z\", root = \"0000000000000000000000000000000000000000000000000000000000000000\", set = \"33030a4a534a202aeb43b9d6da5cfd78\", next = \"33030a4a534a202aeb43b9d6da5cfd78\", votes = \"AN\" },
  { kind = \"sent\", path = \"p0\", seq = 3, height = 5, time = \"2026-11-01T10:59:00Z\", timeout_height = 80, timeout_time = \"2026-11-01T12:00:00Z\" },
  { kind = \"sent\", path = \"p0\", seq = 4, height = 5 },
  { kind = \"received\", path = \"p0\", seq = 3, height = 7 },
  { kind = \"ack\", path = \"p0\", seq = 3, height = 7, time = \"2026-11-01T10:59:30Z\" },
  { kind = \"cleared\", path = \"p1\", seq = 1 },
  { kind = \"closed\", path = \"p0\" },
]
";

#[test]
fn each_table_is_printed(rt: HostRuntime) -> Result<(), Fail> {
    let alloc = rt.alloc();
    let script = read_script(alloc, GIVEN.as_bytes())?;
    let text = text_of_script(alloc, &script, "# two chains\n")?;
    assert!(rt; text.as_str() == PRINTED, "{text}");
    Ok(())
}

#[test]
fn a_script_that_no_text_has_isn_t_printed(rt: HostRuntime) -> Result<(), Fail> {
    let alloc = rt.alloc();
    let mut script = read_script(alloc, GIVEN.as_bytes())?;
    script.config.limit = 7;
    let is_refused = matches!(
        text_of_script(alloc, &script, ""),
        Err(TextError::Unprinted)
    );
    assert!(rt; is_refused);
    Ok(())
}

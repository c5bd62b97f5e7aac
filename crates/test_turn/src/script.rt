//! The scripts that the tests run, and their reports.

/// Two chains, a client of each that tracks the other, and a path each way. In both turns packets are sent on both
/// paths, and headers of the first chain are seen: three of them, and in the second turn one more.
pub const SCRIPT: &str = "version = 1
chain = [{ id = 'a' }, { id = 'b' }]
[[client]]
id = 'c0'
host = 'b'
of = 'a'
period_ns = 1000000000000
drift_ns = 10000000000
fee = [100, 1, 1]
gas = [100, 1, 1]
limits = [100000, 100, 0]
[[client]]
id = 'c1'
host = 'a'
of = 'b'
period_ns = 1000000000000
drift_ns = 10000000000
fee = [100, 1, 1]
gas = [100, 1, 1]
limits = [100000, 100, 0]
[[path]]
id = 'p0'
source = 'a'
dest = 'b'
order = 'unordered'
forward = 'c0'
back = 'c1'
gas = [5, 5, 5]
[[path]]
id = 'p1'
source = 'b'
dest = 'a'
order = 'unordered'
forward = 'c1'
back = 'c0'
gas = [5, 5, 5]
[[turn]]
from = '1970-01-01T00:03:20Z'
until = '1970-01-01T00:03:20Z'
event = [
  { kind = 'set', chain = 'a', name = 'A', validators = [
    ['a1a1a1a1a1a1a1a1a1a1a1a1a1a1a1a1a1a1a1a1a1a1a1a1a1a1a1a1a1a1a1a1', 10],
  ] },
  { kind = 'header', chain = 'a', height = 6, time = '1970-01-01T00:01:00Z', set = 'A', next = 'A', votes = 'C' },
  { kind = 'header', chain = 'a', height = 7, time = '1970-01-01T00:01:10Z', set = 'A', next = 'A', votes = 'C' },
  { kind = 'header', chain = 'a', height = 8, time = '1970-01-01T00:01:20Z', set = 'A', next = 'A', votes = 'C' },
  { kind = 'sent', path = 'p0', seq = 1, height = 4 },
  { kind = 'sent', path = 'p1', seq = 1, height = 4 },
]
[[turn]]
from = '1970-01-01T00:03:20Z'
until = '1970-01-01T00:03:20Z'
event = [
  { kind = 'header', chain = 'a', height = 9, time = '1970-01-01T00:01:30Z', set = 'A', next = 'A', votes = 'C' },
  { kind = 'sent', path = 'p0', seq = 2, height = 5 },
  { kind = 'sent', path = 'p1', seq = 2, height = 5 },
]
";

pub const REPORT: &str = "ibcplan 1
turn 1
client c0 idle
client c1 idle
turn 2
client c0 idle
client c1 idle
end
";

/// The same chains, clients and paths. In both turns a packet is sent on each path, and each client is planned a batch, of
/// which it takes the first one. Two headers of the first chain and one of the second are seen, and in the second turn one
/// more of the first.
pub const BATCHES: &str = "version = 1
chain = [{ id = 'a' }, { id = 'b' }]
[[client]]
id = 'c0'
host = 'b'
of = 'a'
period_ns = 1000000000000
drift_ns = 10000000000
fee = [100, 1, 1]
gas = [100, 1, 1]
limits = [100000, 100, 0]
[[client]]
id = 'c1'
host = 'a'
of = 'b'
period_ns = 1000000000000
drift_ns = 10000000000
fee = [100, 1, 1]
gas = [100, 1, 1]
limits = [100000, 100, 0]
[[path]]
id = 'p0'
source = 'a'
dest = 'b'
order = 'unordered'
forward = 'c0'
back = 'c1'
gas = [5, 5, 5]
[[path]]
id = 'p1'
source = 'b'
dest = 'a'
order = 'unordered'
forward = 'c1'
back = 'c0'
gas = [5, 5, 5]
[[turn]]
from = '1970-01-01T00:03:20Z'
until = '1970-01-01T00:03:20Z'
event = [
  { kind = 'set', chain = 'a', name = 'A', validators = [
    ['a1a1a1a1a1a1a1a1a1a1a1a1a1a1a1a1a1a1a1a1a1a1a1a1a1a1a1a1a1a1a1a1', 10],
  ] },
  { kind = 'stored', client = 'c0', height = 1, time = '1970-01-01T00:00:10Z', next = 'A' },
  { kind = 'header', chain = 'a', height = 6, time = '1970-01-01T00:01:00Z', set = 'A', next = 'A', votes = 'C' },
  { kind = 'header', chain = 'a', height = 7, time = '1970-01-01T00:01:10Z', set = 'A', next = 'A', votes = 'C' },
  { kind = 'set', chain = 'b', name = 'B', validators = [
    ['b1b1b1b1b1b1b1b1b1b1b1b1b1b1b1b1b1b1b1b1b1b1b1b1b1b1b1b1b1b1b1b1', 10],
  ] },
  { kind = 'stored', client = 'c1', height = 1, time = '1970-01-01T00:00:10Z', next = 'B' },
  { kind = 'header', chain = 'b', height = 6, time = '1970-01-01T00:01:00Z', set = 'B', next = 'B', votes = 'C' },
  { kind = 'sent', path = 'p0', seq = 1, height = 4 },
  { kind = 'sent', path = 'p1', seq = 1, height = 5 },
]
settle = [{ client = 'c0', batch = 1, done = 1 }, { client = 'c1', batch = 1, done = 1 }]
[[turn]]
from = '1970-01-01T00:03:20Z'
until = '1970-01-01T00:03:20Z'
event = [
  { kind = 'header', chain = 'a', height = 9, time = '1970-01-01T00:01:30Z', set = 'A', next = 'A', votes = 'C' },
  { kind = 'sent', path = 'p0', seq = 2, height = 8 },
  { kind = 'sent', path = 'p1', seq = 2, height = 5 },
]
";

/// Its report, as the reference planner writes it.
pub const BATCHES_REPORT: &str = "ibcplan 1
turn 1
client c0 goal at_least 5
label 1 0 0
label 6 103 1
label 7 103 1
update 6 from 1 fee 103
total 103 updates 1
recv p0 1
batch 1 proof 6
tx 1 first 0 count 2 gas 108
client c1 goal at_least 6
label 1 0 0
label 6 103 1
update 6 from 1 fee 103
total 103 updates 1
recv p1 1
batch 1 proof 6
tx 1 first 0 count 2 gas 108
settled c0 1 1
settled c1 1 1
turn 2
client c0 goal at_least 9
label 1 0 0
label 6 0 0
label 7 103 1
label 9 103 1
update 9 from 1 fee 103
total 103 updates 1
recv p0 2
batch 2 proof 9
tx 1 first 0 count 2 gas 108
client c1 goal at_least 6
label 1 0 0
label 6 0 0
total 0 updates 0
recv p1 2
batch 2 proof 6
tx 1 first 0 count 1 gas 5
end
";

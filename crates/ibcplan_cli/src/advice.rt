//! What a file should have in the place of a fault. What is said of a client's keys stands in
//! `rb_script_config`, beside what they are called.
use rb_script_config::{CLIENT_KEY_LIST, DEFAULT_KEY_LIST, client_key};
use rb_script_toml::FaultName;

/// Which kinds of events there are.
const KINDS: &str =
    "an event's kind is 'set', 'header', 'stored', 'sent', 'received', 'ack', 'cleared' or 'closed'";

/// A text.
const TEXT: &str = "a text in quotes belongs here";

/// A whole number.
const WHOLE: &str = "a whole number without quotes belongs here";

/// Which orders of a path there are.
const ORDERS: &str = "an order is 'ordered' or 'unordered'";

/// What should stand at the path of a fault.
pub fn advice_for(name: FaultName, path: &str) -> &'static str {
    match name {
        FaultName::NotToml => "the file has to be TOML in UTF-8",
        FaultName::UnknownKey => keys_at(path),
        FaultName::MissingKey => missing_at(path),
        FaultName::WrongType => type_at(path),
        FaultName::BadVersion =>
            "the version of a script, and of the setup of follow, is from 1 to 4, of a setup of import and of a certificate 1",
        FaultName::OutOfRange | FaultName::BadLimit | FaultName::BadFee => range_at(path),
        FaultName::BadIdentifier => {
            "an identifier has 1 to 64 letters, digits and . _ + - # [ ] < >, a set's name at most 32, a port or a channel up to 128"
        }
        FaultName::DuplicateIdentifier => "an earlier one has this identifier",
        FaultName::UnknownIdentifier => wanted_at(path),
        FaultName::BadHex => hex_at(path),
        FaultName::BadTime =>
            "a time is a text as '2026-11-22T10:00:00Z', with Z or an offset, at most 9 digits of a second, from 1970 on",
        FaultName::BadVotes => votes_at(path),
        FaultName::BadKind => KINDS,
        FaultName::BadOrder => ORDERS,
        FaultName::SameChain =>
            "host and of of a client, source and dest of a path, have to be two chains",
        FaultName::WrongClient => {
            "forward is a client on dest that follows source, back one on source that follows dest"
        }
        FaultName::TooManyObjects => {
            "there may be 64 chains, 256 clients, 256 paths and 500 turns; the setup of follow has no turns, which come on standard input"
        }
        FaultName::TooManyEvents =>
            "there may be 200,000 windows of hosts, goals, events and settlements in all",
        FaultName::UnknownSetName => {
            "no set event before this one gives the chain a set of this name: sets stand before the headers and consensus states that name them"
        }
        FaultName::DuplicateSetName => "an earlier set event of the chain has this name",
        FaultName::TwoGoals =>
            "a goal has one of at_least and exactly, and a client one goal in a turn",
        FaultName::BadSet => {
            "a set has 1 to 10,000 validators of different keys, with powers from 1 to 2^60 - 1 in all"
        }
        FaultName::BadWindow => "until is before from",
        FaultName::NoSuchTurn => "the script doesn't have this turn",
        FaultName::BadAnswer => "an answer is 'plan', or 'unreachable' without updates",
        FaultName::NoGoal => "nothing is planned for this client in the turn",
        FaultName::LabelOrder => "the heights of labels have to rise",
        FaultName::InputTooBig => "a file has at most 16,777,216 bytes",
        FaultName::BadTrust => "a trust level is from a third to one",
        FaultName::TooMuchToPlan => {
            "the turns up to this one ask for too much planning, as docs/FORMATS.md counts it; cut the script into several, of fewer turns, chains or clients"
        }
        FaultName::Forgotten => {
            "follow has forgotten what no client trusts or needs any more, and packets that were cleared; leave this event out"
        }
        FaultName::TooManyTables => {
            "outside strings and comments each { [ and . of a file counts eight, since it may open a table or an array, and each = one; they may be 7,200,000 together"
        }
    }
}

/// What should stand at the path of a fault of a setup.
pub fn setup_advice_for(name: FaultName, path: &str) -> &'static str {
    match name {
        FaultName::UnknownKey => setup_keys_at(path),
        FaultName::MissingKey | FaultName::WrongType if is_of_chain(path) => chain_type_at(path),
        FaultName::BadIdentifier if is_of_chain(path) => chain_text_at(path),
        FaultName::BadKind if is_of_chain(path) => {
            "client_message is 'header' for a chain with ibc-go before version 7, else 'client_message'"
        }
        _ => advice_for(name, path),
    }
}

/// Whether a path is that of a key of a chain.
fn is_of_chain(path: &str) -> bool {
    let (table, _) = table_and_key(path);
    key_of(table) == "chain"
}

/// What belongs at a key of a setup's chain.
fn chain_type_at(path: &str) -> &'static str {
    match key_of(path) {
        "signer" => "the account that signs transactions on this chain belongs here, in quotes",
        "fee_denom" => "the coin that fees are paid in belongs here, as 'uatom'",
        "gas_price" => {
            "a numerator and a denominator belong here, as [25, 1000]: the coins for a unit of gas"
        }
        "gas_factor" => {
            "a numerator and a denominator belong here, as [6, 5]: how many times the planned gas is the limit"
        }
        _ => type_at(path),
    }
}

/// Which texts may stand at a key of a setup's chain.
fn chain_text_at(path: &str) -> &'static str {
    match key_of(path) {
        "signer" => "an account has 1 to 128 letters and digits",
        "fee_denom" => "a coin has 1 to 128 letters, digits and / : . _ -",
        _ => advice_for(FaultName::BadIdentifier, path),
    }
}

/// The path of the table in which a path's last key stands, and that key.
fn table_and_key(path: &str) -> (&str, &str) {
    path.rsplit_once('.').unwrap_or(("", path))
}

/// The key of a table, or of an array's element, by its path.
fn key_of(table: &str) -> &str {
    let (_, key) = table_and_key(table);
    match key.split_once('[') {
        Some((array, _)) => array,
        None => key,
    }
}

/// Which keys the table of a setup has in which an unknown one stands.
fn setup_keys_at(path: &str) -> &'static str {
    let (table, _) = table_and_key(path);
    match key_of(table) {
        "" => {
            "there is no such key here; a setup has version, chain, client, path and turn; goal and settle belong into a turn, as [[turn.goal]]"
        }
        "chain" => {
            "a chain of a setup has id and, for transactions, signer, fee_denom, gas_price, gas_factor and client_message; TOML puts a key that stands after [[chain]] into that chain"
        }
        "path" => {
            "a path of a setup has id, source, dest, order, first, forward, back, gas, wait_ns, port, channel, counterparty_port and counterparty_channel"
        }
        "turn" => {
            "a turn of a setup has from, until, goal and settle; its events are made of the answers of nodes"
        }
        _ => keys_at(path),
    }
}

/// Which keys the table has in which an unknown one stands.
fn keys_at(path: &str) -> &'static str {
    let (table, _) = table_and_key(path);
    match key_of(table) {
        "" => {
            "there is no such key here; a script has version, chain, client, path and turn, a certificate version, turn, client, answer, updates and labels; goal, event and settle belong into a turn, as [[turn.goal]]"
        }
        "chain" => {
            "a chain has id and, from version 2 on, defaults; TOML puts a key that stands after [[chain]] into that chain"
        }
        "defaults" => DEFAULT_KEY_LIST,
        "client" => CLIENT_KEY_LIST,
        "path" => {
            "a path has id, source, dest, order, first, forward, back, gas and, from version 3 on, wait_ns, port, channel, counterparty_port and counterparty_channel"
        }
        "turn" => { "a turn has from, until, goal, event, settle and, from version 3 on, taken" }
        "goal" => "a goal has client, and at_least or exactly",
        "event" => {
            "an event has kind and the keys of its kind: set has chain, name, validators; header chain, height, time, root, set, next, votes; stored client, height, time, root, next; sent path, seq, height, timeout_height, timeout_time; received and ack path, seq, height; cleared path, seq; closed path"
        }
        "settle" => "a settlement has client, batch and done",
        _ => "there is no such key here",
    }
}

/// What should stand where a key is missing.
fn missing_at(path: &str) -> &'static str {
    let (table, key) = table_and_key(path);
    match (key, client_key(key)) {
        ("kind", _) => KINDS,
        ("order", _) => ORDERS,
        (_, Some(entry)) if key_of(table) == "client" => entry.missing,
        _ => type_at(path),
    }
}

/// What belongs where votes are others than there are.
fn votes_at(path: &str) -> &'static str {
    let (table, _) = table_and_key(path);
    match key_of(table) {
        "client" => "votes of a client are 'all' or 'needed'",
        _ => "votes are the letters C, N, A and B",
    }
}

/// What belongs where a text isn't of 64 hexadecimal digits.
fn hex_at(path: &str) -> &'static str {
    match key_of(path) {
        "set" | "next" => {
            "64 hexadecimal digits belong here, or the name of a set, of at most 32 characters"
        }
        "validators" => "64 hexadecimal digits belong here; nodes give keys in base64",
        _ => "64 hexadecimal digits belong here",
    }
}

/// Which numbers may stand at a path.
fn range_at(path: &str) -> &'static str {
    let key = key_of(path);
    match client_key(key) {
        Some(entry) => entry.range,
        None => range_of(key),
    }
}

/// Which numbers a key may have that no client has.
fn range_of(key: &str) -> &'static str {
    match key {
        "height" => "a height is from 1 to 2^63 - 1, in an event of a packet to 2^63 - 2",
        "at_least" | "exactly" | "updates" => "a height is from 1 to 2^63 - 1",
        "seq" | "first" => "a sequence is from 1 to 2^63 - 1",
        "batch" | "turn" => "a number from 1 to 2^63 - 1 belongs here",
        "timeout_height" | "done" => "a number from 0 to 2^63 - 1 belongs here",
        "wait_ns" => "a wait is from 0 to 2^63 - 1 nanoseconds",
        "validators" => "a power is from 1 to 2^60 - 1",
        "labels" => "a label's height is from 1, its fee and its count from 0 to 2^63 - 1",
        "gas_factor" => "a factor isn't below 0, and its denominator from 1 on",
        "max_gas" => "a gas limit is from 1 to 10^15",
        "max_msg_num" => "a number of messages is from 1 to 10,000",
        "gas_price" => "a price isn't below 0, and its denominator from 1 on",
        _ => "this number is too small or too big",
    }
}

/// What an identifier at a path should be of.
fn wanted_at(path: &str) -> &'static str {
    match key_of(path) {
        "host" | "of" | "source" | "dest" | "chain" => {
            "no chain has this identifier (each [[chain]] gives one by its id)"
        }
        "forward" | "back" | "client" => {
            "no client has this identifier (each [[client]] gives one by its id)"
        }
        "path" => "no path has this identifier (each [[path]] gives one by its id)",
        _ => "nothing has this identifier",
    }
}

/// What belongs where an element of an array, or of one of its elements, has another type.
fn element_type(array: &str, is_inner: bool) -> &'static str {
    match client_key(array) {
        Some(entry) => entry.element,
        None if is_inner => inner_type(array),
        None => outer_type(array),
    }
}

/// What belongs into an element of an array that no client has.
fn inner_type(array: &str) -> &'static str {
    match array {
        "validators" => "a key in quotes, 64 hexadecimal digits, and a power without belong here",
        "updates" | "labels" => "a whole number belongs here",
        _ => table_type(array),
    }
}

/// What belongs into an array that no client has.
fn outer_type(array: &str) -> &'static str {
    match array {
        "validators" => "a key and a power belong here, as ['64 hexadecimal digits', 10]",
        "wait_ns" => "a whole number belongs here",
        "updates" => "a height and a trusted height belong here, as [3, 1]",
        "labels" => "a height, a fee and a count belong here, as [3, 112, 1]",
        _ => table_type(array),
    }
}

/// What belongs into an array whose elements are tables, if it is one.
fn table_type(array: &str) -> &'static str {
    match array {
        "chain" | "client" | "path" | "turn" | "goal" | "event" | "settle" | "chains" => {
            "a table belongs here"
        }
        _ => "a value of another type belongs here",
    }
}

/// A value of the type with this name in TOML, in the words of messages.
pub fn type_words(name: &str) -> &'static str {
    match name {
        "string" => "a text in quotes",
        "integer" => "a whole number",
        "float" => "a float",
        "boolean" => "a boolean",
        "datetime" => "a date-time without quotes",
        "array" => "an array",
        _ => "a table",
    }
}

/// What belongs where a value has another type.
fn type_at(path: &str) -> &'static str {
    let (table, key) = table_and_key(path);
    if let Some((array, indices)) = key.split_once('[') {
        return element_type(array, indices.contains("]["));
    }
    match client_key(key) {
        Some(entry) => entry.kind,
        None if table.is_empty() => top_type(key),
        None => type_of(key),
    }
}

/// What belongs at a key that stands above the tables.
fn top_type(key: &str) -> &'static str {
    match key {
        "version" => {
            "a whole number without quotes belongs here, above the first [[..]]: TOML puts a key that stands after [[chain]] into that chain"
        }
        "chain" => "an array of tables belongs here, as [[chain]]",
        "path" => "an array of tables belongs here, as [[path]]",
        "chains" => { "an array of tables belongs here, as [[chains]] in Hermes' configuration" }
        "client" => {
            "an array of tables belongs here, as [[client]]; in a certificate an identifier in quotes"
        }
        _ => type_of(key),
    }
}

/// What belongs at a key that no client has.
fn type_of(key: &str) -> &'static str {
    match key {
        "version" | "at_least" | "exactly" | "height" | "seq" | "timeout_height" => WHOLE,
        "first" | "batch" | "done" => WHOLE,
        "source" | "dest" | "order" | "forward" | "back" | "kind" | "name" => TEXT,
        "set" | "next" | "root" | "votes" | "answer" => TEXT,
        "port" | "channel" | "counterparty_port" | "counterparty_channel" => TEXT,
        "chain" | "client" | "path" | "rpc_addr" => TEXT,
        "max_gas" | "max_msg_num" => WHOLE,
        _ => array_type(key),
    }
}

/// What belongs at a key of a time, of an array or of a table that no client has.
fn array_type(key: &str) -> &'static str {
    match key {
        "from" | "until" | "time" | "timeout_time" => {
            "a time in quotes belongs here, as '2026-11-22T10:00:00Z'"
        }
        "validators" =>
            "pairs of a key and a power belong here, as [['64 hexadecimal digits', 10]]",
        "wait_ns" => {
            "three numbers of nanoseconds belong here, as [300_000_000_000, 0, 0]: how long a receive, an acknowledgement and a timeout may wait"
        }
        "taken" => "true or false belongs here, without quotes",
        "goal" => "an array of tables belongs here, as [[turn.goal]]",
        "event" => "an array of tables belongs here, as [[turn.event]]",
        "settle" => "an array of tables belongs here, as [[turn.settle]]",
        "turn" => "an array of tables belongs here, as [[turn]]; in a certificate a turn's number",
        "defaults" => "a table belongs here, as [chain.defaults]",
        "gas_price" => "a table with a price belongs here, as { price = 0.025, denom = 'uatom' }",
        "updates" => "pairs of a height and a trusted height belong here, as [[3, 1]]",
        "labels" => "a height, a fee and a count belong here, as [[3, 112, 1]]",
        _ => "a value of another type, or an array of another length, belongs here",
    }
}

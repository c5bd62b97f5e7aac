//! A plain script, whose events are held as TOML one at a time: its keys stand first, each on a line, then tables under
//! headers as `[[client]]`, those of a key in a row, then its turns, each under `[[turn]]`. Any other text is left to the
//! reader of whole texts, and so is each that has a fault.
ghost use Rattle.std.specs.Prelude.{◌≡◌, ℕ, List, true, ◌<◌, ◌≤◌, [], codes, length, string_bytes, IfOk, IfSome, Some, Ok, map};
ghost use Rattle.toml_parser.specs.Lexical.{first, skip_ws};
ghost use Rattle.toml.specs.Data.{Items, no_items, table, push_item, Members};
ghost use Rattle.toml.specs.View.{view, array_view, table_view};
ghost use Rattle.toml.specs.Tables.{Document, Nodes, no_nodes, array_table, close};
ghost use Rattle.toml.specs.Parse as grammar;
ghost use Rattle.rb_script_types.specs.Script.{script_view, turn_view};
ghost use Rattle.rb_script_toml.specs.Documents.{max_marks, whole};
ghost use Rattle.rb_script_toml.specs.Fields.{in_sequence, section_view};
ghost use Rattle.rb_script_toml.specs.Faults.{Gives};
ghost use Rattle.rb_script_config.specs.Setups.{setup_view};
ghost use Rattle.rb_script_read.specs.Events.{event};
ghost use Rattle.rb_script_read.specs.Front.{values_of, Shortens};
ghost use Rattle.rb_script_toml.specs.KeyPaths.{child};
ghost use Rattle.rb_script_toml.specs.Marks.{marks};
ghost use Rattle.rb_script_read.specs.Names.{Names, names_of};
ghost use Rattle.rb_script_read.specs.NextTurns.{next_turn_view};
ghost use Rattle.rb_script_read.specs.Plain.{AreRead, IsKeyRead, IsPair, Leaves, TakesPairs, in_array, in_turn, around, with_events};
ghost use Rattle.rb_script_read.specs.Ready.{validators_at};
ghost use Rattle.rb_script_read.specs.Scripts.{script, script_of};
ghost use Rattle.rb_script_read.specs.TurnNames.{names_now};
ghost use Rattle.rb_script_read.specs.Turns.{Reading as ReadingView, turn, turn_at, turns_of, opening, reading_view};

use crate::event::read_event_at;
use crate::front::{NotPlain, after_element, plain_key, put, value};
use crate::ready::{ReadySet, is_set, set_at};
use crate::turn::{NextTurn, Reading, ReadingChange, read_head};
use crate::turn_names::TurnNames;
use crate::work::check_work;
use rb_script_config::{
    Setup, read_goals, read_settlements, read_setup, read_tables, read_windows,
};
use rb_script_toml::{
    MAX_BYTES, MAX_MARKS, RunError, Section, child_path, count_marks, element_path,
};
use rb_script_types::{MAX_TURNS, Observation, Script, Turn};
use rb_valset::Known;
use std::alloc::Global;
use toml::value::Array;
use toml::{Table, Value};
use toml_parser::text::{byte_at, first, skip, skip_blank, skip_ws};
use toml_parser::{RECURSION_LIMIT, dotted_key};

/// What the lines of a turn hold so far: its keys, of which that of events holds none, its events, and the names
/// that are known.
#[derive(Drop)]
pub struct TurnLines<'a> {
    table: Table,
    events: Vec<Observation>,
    names: TurnNames<'a>,
}

/// The set that an event is, if it is one.
fn ready_set(
    alloc: Global,
    path: &str,
    place: usize,
    event: &Value,
    known: &mut Known,
) -> Option<ReadySet>
    ensures { IfSome result (λ r. Gives (λ s. s) r.set (validators_at path.now place (view event.now))) }
{
    if !is_set(event) {
        return None;
    }
    let set = set_at(alloc, path, place, event, known);
    Some(ReadySet { place, set })
}

/// Reads the elements of an array of events, each after the names that were given before it.
fn read_elements<'t>(
    path: &str,
    s: &'t str,
    setup: &Setup,
    names: &mut TurnNames<'_>,
) -> Result<(Vec<Observation>, &'t str), NotPlain>
    ensures read { (n : ℕ) → length s.now < n → IfOk result (λ p. (ds : Items)
        × (grammar.items (grammar.val 79) n no_items s.now ≡ Some (ds, p.1.now))
        × (in_sequence (event (setup_view setup.now)) path.now (names_now names.old) [] ds ≡ Ok (p.0.items, names_now names.new))) }
    ensures earlier { names.new.earlier.now ≡ names.old.earlier.now }
    ensures shorter { Shortens s.now result }
{
    let alloc = names.alloc;
    let mut known = Known::new(alloc);
    let mut events = Vec::new(alloc);
    let mut rest = s;
    'events: loop {
        let start = skip_blank(rest, true);
        if first(start) == b']' {
            return Ok((events, skip(start, 1)));
        }
        let (element, after) = value(alloc, start, RECURSION_LIMIT - 1)?;
        let place = events.len();
        let set = ready_set(alloc, path, place, &element, &mut known);
        let event = read_event_at(path, place, &element, setup, &mut *names, set)?;
        drop(element);
        events.push(event)?;
        rest = after_element(after, b']')?;
    }
}

/// Whether a line ends here, but for white space and a comment.
fn ends_line(s: &str) -> bool
    ensures { result ≡ grammar.ends_line (skip_ws s.now) }
{
    let end = skip_ws(s);
    end.is_empty() || matches!(first(end), b'#' | b'\n' | b'\r')
}

/// Reads the value of a key, up to the end of its line, and gives it to the key.
fn read_value<'t>(
    alloc: Global,
    table: &mut Table,
    key: String,
    s: &'t str,
) -> Result<&'t str, NotPlain>
    ensures pair { IfOk result (λ rest. IsPair (string_bytes key) s.now rest.now (table_view table.old) (table_view table.new)) }
    ensures shorter { IfOk result (λ rest. length rest.now < length s.now) }
{
    let (value, rest) = value(alloc, s, RECURSION_LIMIT)?;
    if !ends_line(rest) {
        return Err(NotPlain);
    }
    put(table, key, value)?;
    Ok(rest)
}

/// Reads keys and their values, up to the end or a header.
fn read_keys(alloc: Global, s: &str) -> Result<(Table, &str), NotPlain>
    ensures read { (within : Nodes → Document) (n : ℕ) → TakesPairs within → length s.now < n
        → IfOk result (λ p. Leaves n (within no_nodes) s.now (within (values_of (table_view p.0))) p.1.now) }
    ensures within { IfOk result (λ p. length p.1.now ≤ length s.now) }
{
    let mut table = Table::new(alloc);
    let mut rest = s;
    'lines: loop {
        let start = skip_blank(rest, true);
        if start.is_empty() || first(start) == b'[' {
            return Ok((table, rest));
        }
        let (key, at_value) = plain_key(alloc, start)?;
        rest = read_value(alloc, &mut table, key, at_value)?;
    }
}

fn after_closing(s: &str) -> Result<&str, NotPlain>
    ensures byte { IfOk result (λ rest. grammar.after_byte 93 s.now ≡ Some rest.now) }
    ensures shorter { IfOk result (λ rest. length rest.now < length s.now) }
{
    if first(s) != b']' {
        return Err(NotPlain);
    }
    Ok(skip(s, 1))
}

/// The key of a header in double brackets, and what follows its line.
fn array_header(alloc: Global, s: &str) -> Result<(String, &str), NotPlain>
    ensures header { IfOk result (λ p. grammar.line s.now ≡ Some ((([], string_bytes p.0), array_table), p.1.now)) }
    ensures shorter { Shortens s.now result }
{
    if first(s) != b'[' || byte_at(s, 1) != b'[' {
        return Err(NotPlain);
    }
    let (key, rest) = dotted_key(alloc, skip_ws(skip(s, 2)))?;
    let rest = after_closing(after_closing(rest)?)?;
    if key.path.is_empty() && ends_line(rest) {
        Ok((key.last, rest))
    } else {
        Err(NotPlain)
    }
}

/// What follows `[[turn]]`.
fn after_header(alloc: Global, s: &str) -> Result<&str, NotPlain>
    ensures header { IfOk result (λ rest. grammar.line s.now ≡ Some ((([], codes "turn"), array_table), rest.now)) }
    ensures shorter { IfOk result (λ rest. length rest.now < length s.now) }
{
    let (key, rest) = array_header(alloc, s)?;
    if key.as_str() == "turn" {
        Ok(rest)
    } else {
        Err(NotPlain)
    }
}

/// Reads the tables that stand under headers of this key in a row, up to a header of another one.
fn read_array<'t>(alloc: Global, key: &str, s: &'t str) -> Result<(Array, &'t str), NotPlain>
    ensures read { (root : Nodes) (n : ℕ) → length s.now < n → IfOk result (λ p. (done : Items) × (last : Nodes)
        × Leaves n (in_array key.now root no_items no_nodes) s.now (in_array key.now root done last) p.1.now
        × (array_view p.0 ≡ push_item done (table (close last)))) }
    ensures within { IfOk result (λ p. length p.1.now ≤ length s.now) }
{
    let mut tables = Vec::new(alloc);
    let mut rest = s;
    'tables: loop {
        let (table, after) = read_keys(alloc, rest)?;
        tables.push(Value::Table(table))?;
        let (next, behind) = array_header(alloc, skip_blank(after, true))?;
        if next.as_str() != key {
            return Ok((tables, after));
        }
        rest = behind;
    }
}

/// Reads the keys and tables of a script, up to the header of its first turn.
fn read_root(alloc: Global, s: &str) -> Result<(Table, &str), NotPlain>
    ensures { (n : ℕ) → length s.now < n → IfOk result (λ p. (root : Nodes) × (path : List (List ℕ))
        × Leaves n (no_nodes, []) s.now (root, path) p.1.now × (close root ≡ table_view p.0)) }
{
    let (mut keys, mut rest) = read_keys(alloc, s)?;
    'arrays: loop {
        let (key, after) = array_header(alloc, skip_blank(rest, true))?;
        if key.as_str() == "turn" {
            return Ok((keys, rest));
        }
        let (tables, left) = read_array(alloc, key.as_str(), after)?;
        put(&mut keys, key, Value::Array(tables))?;
        rest = left;
    }
}

/// Reads the events of a turn, up to the end of their line.
fn read_listed<'t>(
    lines: &mut TurnLines<'_>,
    path: &str,
    key: String,
    s: &'t str,
    setup: &Setup,
) -> Result<&'t str, NotPlain>
    requires key { string_bytes key ≡ codes "event" }
    ensures read { (names : Names) (ds : Items)
        → AreRead (setup_view setup.now) path.now names (table_view lines.old.table) ds lines.old.events.items (names_now lines.old.names)
        → IfOk result (λ rest. IsKeyRead (setup_view setup.now) path.now names (string_bytes key) s.now rest.now
        (around ds (table_view lines.old.table)) (table_view lines.new.table) lines.new.events.items (names_now lines.new.names)) }
    ensures earlier { lines.new.names.earlier.now ≡ lines.old.names.earlier.now }
    ensures shorter { IfOk result (λ rest. length rest.now < length s.now) }
{
    if first(s) != b'[' {
        return Err(NotPlain);
    }
    let alloc = lines.names.alloc;
    let (events, rest) = read_elements(path, skip(s, 1), setup, &mut lines.names)?;
    if !ends_line(rest) {
        return Err(NotPlain);
    }
    put(&mut lines.table, key, Value::Array(Vec::new(alloc)))?;
    lines.events = events;
    Ok(rest)
}

/// Reads what a key of a turn holds, up to the end of its line.
fn read_key<'t>(
    lines: &mut TurnLines<'_>,
    path: &str,
    key: String,
    s: &'t str,
    setup: &Setup,
) -> Result<&'t str, NotPlain>
    ensures read { (names : Names) (ds : Items)
        → AreRead (setup_view setup.now) path.now names (table_view lines.old.table) ds lines.old.events.items (names_now lines.old.names)
        → IfOk result (λ rest. IsKeyRead (setup_view setup.now) path.now names (string_bytes key) s.now rest.now
        (around ds (table_view lines.old.table)) (table_view lines.new.table) lines.new.events.items (names_now lines.new.names)) }
    ensures earlier { lines.new.names.earlier.now ≡ lines.old.names.earlier.now }
    ensures shorter { IfOk result (λ rest. length rest.now < length s.now) }
{
    if key.as_str() == "event" {
        return read_listed(lines, path, key, s, setup);
    }
    let alloc = lines.names.alloc;
    read_value(alloc, &mut lines.table, key, s)
}

/// Reads the lines of a turn, up to the end or the next header.
fn read_lines<'t>(
    lines: &mut TurnLines<'_>,
    path: &str,
    s: &'t str,
    setup: &Setup,
) -> Result<&'t str, NotPlain>
    ensures read { (root : Nodes) (done : Items) (names : Names) (ds : Items) (n : ℕ) → length s.now < n
        → AreRead (setup_view setup.now) path.now names (table_view lines.old.table) ds lines.old.events.items (names_now lines.old.names)
        → IfOk result (λ rest. (es : Items)
        × Leaves n (in_turn root done (around ds (table_view lines.old.table))) s.now (in_turn root done (around es (table_view lines.new.table))) rest.now
        × AreRead (setup_view setup.now) path.now names (table_view lines.new.table) es lines.new.events.items (names_now lines.new.names)) }
    ensures earlier { lines.new.names.earlier.now ≡ lines.old.names.earlier.now }
    ensures within { IfOk result (λ rest. length rest.now ≤ length s.now) }
{
    let alloc = lines.names.alloc;
    let mut rest = s;
    'lines: loop {
        let start = skip_blank(rest, true);
        if start.is_empty() || first(start) == b'[' {
            return Ok(rest);
        }
        let (key, at_value) = plain_key(alloc, start)?;
        rest = read_key(&mut *lines, path, key, at_value, setup)?;
    }
}

/// The turn of a table whose events were read.
#[tactic(auto, using(rb_script_toml::proofs::Steps::steps))]
fn turn_around(
    section: &Section<'_>,
    setup: &Setup,
    reading: &Reading,
    events: Vec<Observation>,
    names: TurnNames<'_>,
) -> Result<NextTurn, NotPlain>
    requires earlier { names.earlier.now ≡ reading.now.names }
    ensures { (ds : Items)
        → AreRead (setup_view setup.now) (child section.now.path.now (codes "event")) (names_of reading.now.names) (table_view section.now.table.now) ds events.items (names_now names.entry)
        → IfOk result (λ n. turn (setup_view setup.now) (reading_view reading.now) (with_events ds (section_view section.now)) ≡ Ok (next_turn_view (reading_view reading.now) n)) }
{
    let Some(room) = reading.room.checked_sub(events.len()) else {
        return Err(NotPlain);
    };
    let head = read_head(setup.version, *section, room)?;
    if !head.events.is_empty() {
        return Err(NotPlain);
    }
    let path = child_path(section.alloc, section.path, "window")?;
    let windows = read_windows(section.alloc, path.as_str(), head.windows, &setup.chains)?;
    let path = child_path(section.alloc, section.path, "goal")?;
    let goals = read_goals(section.alloc, path.as_str(), head.goals, &setup.clients)?;
    let path = child_path(section.alloc, section.path, "settle")?;
    let settlements = read_settlements(
        section.alloc,
        path.as_str(),
        head.settlements,
        &setup.clients,
    )?;
    let turn = Turn {
        window: head.window,
        windows,
        goals,
        events,
        settlements,
        taken: head.taken,
    };
    let change = ReadingChange {
        namings: names.into_namings(),
        room: head.room,
    };
    Ok(NextTurn { turn, change })
}

/// Reads the turn of this number from its lines, after those before it.
fn read_turn_text<'t>(
    index: usize,
    s: &'t str,
    setup: &Setup,
    reading: &Reading,
) -> Result<(NextTurn, &'t str), NotPlain>
    ensures read { (root : Nodes) (done : Items) (n : ℕ) → length s.now < n → IfOk result (λ p. (last : Nodes)
        × Leaves n (in_turn root done no_nodes) s.now (in_turn root done last) p.1.now
        × (turn_at (setup_view setup.now) index (reading_view reading.now) (table (close last)) ≡ Ok (next_turn_view (reading_view reading.now) p.0))) }
    ensures within { IfOk result (λ p. length p.1.now ≤ length s.now) }
{
    let alloc = reading.names.alloc;
    let path = element_path(alloc, "turn", index)?;
    let of_events = child_path(alloc, path.as_str(), "event")?;
    let mut lines = TurnLines {
        table: Table::new(alloc),
        events: Vec::new(alloc),
        names: TurnNames::after(&reading.names),
    };
    let rest = read_lines(&mut lines, of_events.as_str(), s, setup)?;
    let TurnLines {
        table,
        events,
        names,
    } = lines;
    let section = Section {
        alloc,
        path: path.as_str(),
        table: &table,
    };
    let next = turn_around(&section, setup, reading, events, names)?;
    Ok((next, rest))
}

/// Reads the turns behind the first header.
fn read_turn_texts(alloc: Global, s: &str, setup: &Setup) -> Result<Vec<Turn>, NotPlain>
    ensures { (root : Nodes) (n : ℕ) → length s.now < n → IfOk result (λ turns. (done : Items) × (last : Nodes) × (after : ReadingView)
        × (grammar.lines n (in_turn root no_items no_nodes) s.now ≡ Some (in_turn root done last))
        × (turns_of (setup_view setup.now) opening (push_item done (table (close last))) ≡ Ok (map turn_view turns.items, after))) }
{
    let mut reading = Reading::opening(alloc);
    let mut turns = Vec::new(alloc);
    let mut rest = s;
    'turns: loop {
        let (next, after) = read_turn_text(turns.len(), rest, setup, &reading)?;
        reading.take(next.change)?;
        turns.push(next.turn)?;
        let start = skip_blank(after, true);
        if start.is_empty() {
            return Ok(turns);
        }
        rest = after_header(alloc, start)?;
    }
}

/// Reads a plain script.
#[tactic(auto, using(rb_script_toml::proofs::Steps::steps))]
fn read_text(alloc: Global, text: &str) -> Result<Script, NotPlain>
    ensures { IfOk result (λ s. (ms : Members) × (grammar.parse_document text.now ≡ Some ms) × (script (whole ms) ≡ Ok (script_view s))) }
{
    if first(text) == 0xEF {
        return Err(NotPlain);
    }
    let (mut root, rest) = read_root(alloc, text)?;
    put(
        &mut root,
        String::from_str(alloc, "turn")?,
        Value::Array(Vec::new(alloc)),
    )?;
    let section = Section {
        alloc,
        path: "",
        table: &root,
    };
    let tables = read_tables(section)?;
    let setup = read_setup(alloc, tables)?;
    let rest = after_header(alloc, skip_blank(rest, true))?;
    let turns = read_turn_texts(alloc, rest, &setup)?;
    if turns.len() > MAX_TURNS {
        return Err(NotPlain);
    }
    let script = Script {
        config: setup.into_config(),
        turns,
    };
    check_work(alloc, &script)?;
    Ok(script)
}

/// The most bytes of a text whose marks needn't be counted: each byte has eight at most.
const FEW_BYTES: usize = 900_000;

/// Whether a text has no more marks than it may have.
fn has_few_marks(bytes: &[u8]) -> bool
    ensures { (result ≡ true) → (marks bytes.now ≤ max_marks) }
{
    bytes.len() <= FEW_BYTES || count_marks(bytes) <= MAX_MARKS
}

/// Reads the script of a text that is plain, and has no fault.
pub(crate) fn read_plain(alloc: Global, bytes: &[u8]) -> Result<Script, NotPlain>
    ensures { IfOk result (λ s. script_of bytes.now ≡ Ok (script_view s)) }
{
    if bytes.len() > MAX_BYTES || !has_few_marks(bytes) {
        return Err(NotPlain);
    }
    match std::str::from_utf8(bytes) {
        Ok(text) => read_text(alloc, text),
        Err(_) => Err(NotPlain),
    }
}

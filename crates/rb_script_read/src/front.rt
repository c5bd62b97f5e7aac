//! TOML values at the front of a text, read one at a time. What isn't plain, as a key with points, is left to the
//! reader of whole texts.
ghost use Rattle.std.specs.Prelude.{◌≡◌, ℕ, ◌-◌, ◌<◌, ◌≤◌, [], Some, None, length, string_bytes, IfOk, OnOk};
ghost use Rattle.toml.specs.Data as values;
ghost use Rattle.toml.specs.View.{view, table_view};
ghost use Rattle.toml.specs.Tables as tables;
ghost use Rattle.toml.specs.Parse as grammar;
ghost use Rattle.rb_script_read.specs.Front.{Takes, Shortens, values_of};

use rb_script_toml::RunError;
use std::alloc::{AllocError, AllocFailed, Global};
use toml::{Table, Value};
use toml_parser::text::{first, skip, skip_blank, skip_ws};
use toml_parser::{ParseError, Scalar, dotted_key, quoted, starts_string, unquoted};

/// Nothing is said of a text: it isn't plain, has a fault, or memory ran out.
#[derive(Clone, Copy, Drop)]
pub struct NotPlain;

impl From<ParseError> for NotPlain {
    fn from(_: ParseError) -> NotPlain {
        NotPlain
    }
}

impl From<AllocError> for NotPlain {
    fn from(_: AllocError) -> NotPlain {
        NotPlain
    }
}

impl<T: Drop> From<AllocFailed<T>> for NotPlain {
    fn from(_: AllocFailed<T>) -> NotPlain {
        NotPlain
    }
}

impl From<RunError> for NotPlain {
    fn from(_: RunError) -> NotPlain {
        NotPlain
    }
}

/// The value that a text begins with, and what stands behind it; arrays and inline tables are at most `depth` deep.
#[cycle(value)]
pub fn value(alloc: Global, text: &str, depth: usize) -> Result<(Value, &str), NotPlain>
    ensures value { Takes view result (grammar.val depth text.now) }
    ensures shorter { Shortens text.now result }
{
    match first(text) {
        b'[' => elements(alloc, skip(text, 1), below(depth)?),
        b'{' => pairs(alloc, skip(text, 1), below(depth)?),
        _ => single(alloc, text),
    }
}

/// How deep what stands in an array or a table may be.
fn below(depth: usize) -> Result<usize, NotPlain>
    ensures room { OnOk result (0 < depth) }
    ensures inner { IfOk result (λ inner. inner ≡ depth - 1) }
{
    match depth {
        0 => Err(NotPlain),
        _ => Ok(depth - 1),
    }
}

/// A string, a number, a boolean or a date.
#[tactic(auto, unfolding(toml::specs::Parse::atom))]
fn single(alloc: Global, text: &str) -> Result<(Value, &str), NotPlain>
    ensures value { Takes view result (grammar.atom text.now) }
    ensures shorter { Shortens text.now result }
{
    if !starts_string(text) {
        let (scalar, behind) = unquoted(alloc, text)?;
        return Ok((of_scalar(scalar), behind));
    }
    let (string, behind) = quoted(alloc, text)?;
    Ok((Value::String(string), behind))
}

fn of_scalar(scalar: Scalar) -> Value
    ensures { view result ≡ grammar.scalar_data scalar }
{
    match scalar {
        Scalar::Integer(number) => Value::Integer(number),
        Scalar::Float(number) => Value::Float(number),
        Scalar::Boolean(is_so) => Value::Boolean(is_so),
        Scalar::Datetime(moment) => Value::Datetime(moment),
    }
}

/// The array of the elements up to the closing bracket.
#[cycle(value)]
fn elements(alloc: Global, text: &str, depth: usize) -> Result<(Value, &str), NotPlain>
    ensures value { (n : ℕ) → length text.now < n → Takes view result (grammar.read_map values.array (grammar.items (grammar.val depth) n values.no_items text.now)) }
    ensures shorter { Shortens text.now result }
{
    let mut array = Vec::new(alloc);
    let mut behind = text;
    'elements: loop {
        let place = skip_blank(behind, true);
        if first(place) == b']' {
            return Ok((Value::Array(array), skip(place, 1)));
        }
        let (element, end) = value(alloc, place, depth)?;
        array.push(element)?;
        behind = after_element(end, b']')?;
    }
}

/// The table of the pairs up to the closing brace, each of a key without points.
#[cycle(value)]
fn pairs(alloc: Global, text: &str, depth: usize) -> Result<(Value, &str), NotPlain>
    ensures value { (n : ℕ) → length text.now < n → Takes view result (grammar.read_map values.table (grammar.members (grammar.val depth) n tables.no_nodes text.now)) }
    ensures shorter { Shortens text.now result }
{
    let mut table = Table::new(alloc);
    let mut behind = text;
    'pairs: loop {
        let place = skip_blank(behind, true);
        if first(place) == b'}' {
            return Ok((Value::Table(table), skip(place, 1)));
        }
        let (key, at_value) = plain_key(alloc, place)?;
        let (held, end) = value(alloc, at_value, depth)?;
        put(&mut table, key, held)?;
        behind = after_element(end, b'}')?;
    }
}

/// Behind the comma after an element, or at the closing bracket.
#[tactic(auto, unfolding(toml::specs::Parse::after_element))]
pub fn after_element(text: &str, closing: u8) -> Result<&str, NotPlain>
    ensures value { IfOk result (λ rest. grammar.after_element closing text.now ≡ Some rest.now) }
    ensures within { IfOk result (λ rest. length rest.now ≤ length text.now) }
{
    let sign = skip_blank(text, true);
    if first(sign) == b',' {
        return Ok(skip(sign, 1));
    }
    if first(sign) != closing {
        return Err(NotPlain);
    }
    Ok(sign)
}

/// A key without points, `=` and the white space after it.
pub fn plain_key(alloc: Global, text: &str) -> Result<(String, &str), NotPlain>
    ensures key { Takes (λ key. ([], string_bytes key)) result (grammar.key_equals text.now) }
    ensures shorter { Shortens text.now result }
{
    let (key, sign) = dotted_key(alloc, text)?;
    if first(sign) == b'=' && key.path.is_empty() {
        Ok((key.last, skip_ws(skip(sign, 1))))
    } else {
        Err(NotPlain)
    }
}

/// Gives a key of a table a value, unless it has one.
pub fn put(table: &mut Table, key: String, value: Value) -> Result<(), NotPlain>
    ensures absent { OnOk result (tables.get_node (string_bytes key) (values_of (table_view table.old)) ≡ None) }
    ensures written { OnOk result (values_of (table_view table.new) ≡ tables.insert (string_bytes key) (tables.value (view value)) (values_of (table_view table.old))) }
{
    if table.insert(key, value)?.is_some() {
        return Err(NotPlain);
    }
    Ok(())
}

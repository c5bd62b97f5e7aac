//! The line of a picture's heights, their marks, and the bands of the sets that signed their headers.
use crate::columns::{Column, Columns};
use crate::svg::{Anchor, Area, push_box, push_circle, push_label, push_line};
use rb_explain::{ClientExplanation, KnownHeight, StoredHeight};
use std::alloc::{AllocError, Global};

/// The colours of sets come again after so many.
const COLOURS: usize = 6;

const CLASSES: [&str; COLOURS] = ["s0", "s1", "s2", "s3", "s4", "s5"];

/// Which set signed what a column stands for: none that is known, one, by its number in the order of the heights, or several.
#[derive(Clone, Copy, PartialEq, Eq)]
enum Signer {
    Nobody,
    Set(usize),
    Several,
}

impl Signer {
    /// Both together.
    fn and(self, other: Signer) -> Signer {
        match (self, other) {
            (Signer::Nobody, other) => other,
            (signer, Signer::Nobody) => signer,
            (signer, other) if signer == other => signer,
            _ => Signer::Several,
        }
    }
}

/// So many places of a book's sets are needed for those that signed.
fn places_of(heights: &[KnownHeight]) -> usize {
    let mut count: usize = 0;
    for known in heights {
        if let Some(place) = known.set {
            count = count.max(place.saturating_add(1));
        }
    }
    count
}

/// The numbers of the sets that signed, in the order of the heights, by the sets' places in the book.
fn numbers_of(alloc: Global, heights: &[KnownHeight]) -> Result<Vec<Option<usize>>, AllocError> {
    let mut numbers: Vec<Option<usize>> = vec![in alloc; None; places_of(heights)]?;
    let mut count: usize = 0;
    for known in heights {
        if let Some(place) = known.set {
            if let Some(number) = numbers.get_mut(place) {
                if number.is_none() {
                    *number = Some(count);
                    count = count.saturating_add(1);
                }
            }
        }
    }
    Ok(numbers)
}

fn signer_of(numbers: &[Option<usize>], known: &KnownHeight) -> Signer {
    let Some(place) = known.set else {
        return Signer::Nobody;
    };
    match numbers.get(place) {
        Some(Some(number)) => Signer::Set(*number),
        _ => Signer::Nobody,
    }
}

/// The signer of all heights of a column.
fn signer_in(numbers: &[Option<usize>], heights: &[KnownHeight], column: &Column) -> Signer {
    let mut signer = Signer::Nobody;
    for known in heights.iter().skip(column.first).take(column.count) {
        signer = signer.and(signer_of(numbers, known));
    }
    signer
}

/// Adds the band of neighbours that one signer has in common.
fn push_band(
    text: &mut String,
    alloc: Global,
    signer: Signer,
    from: u64,
    to: u64,
    y: u64,
) -> Result<(), AllocError> {
    let width = to.saturating_sub(from).saturating_sub(2);
    let area = Area::new(from.saturating_add(1), y, width, 16);
    let middle = from.saturating_add(to) / 2;
    let below = y.saturating_add(12);
    match signer {
        Signer::Nobody => Ok(()),
        Signer::Several => {
            push_box(text, "several", area)?;
            push_label(text, middle, below, Anchor::Middle, "note", "sets")
        }
        Signer::Set(number) => {
            let class = CLASSES.get(number % COLOURS).copied().unwrap_or("s0");
            push_box(text, class, area)?;
            let count = number.saturating_add(1);
            let words = format!(in alloc; "set {count}")?;
            push_label(text, middle, below, Anchor::Middle, "band", words.as_str())
        }
    }
}

/// Adds the bands, neighbours of one signer together.
pub(crate) fn push_bands(
    text: &mut String,
    alloc: Global,
    heights: &[KnownHeight],
    columns: &Columns,
    y: u64,
) -> Result<(), AllocError> {
    let numbers = numbers_of(alloc, heights)?;
    let mut signer = Signer::Nobody;
    let mut from = 0;
    let mut to = 0;
    for column in &columns.list {
        let next = signer_in(numbers.as_slice(), heights, column);
        if next != signer {
            push_band(text, alloc, signer, from, to, y)?;
            signer = next;
            from = column.middle.saturating_sub(column.half);
        }
        to = column.middle.saturating_add(column.half);
    }
    push_band(text, alloc, signer, from, to, y)
}

/// What is stored at a height.
fn stored_at(client: &ClientExplanation, known: &KnownHeight) -> Option<StoredHeight> {
    let stored = client.stored.as_slice();
    match stored.binary_search_by_key(&known.height, |stored| stored.height) {
        Ok(place) => stored.get(place).copied(),
        Err(_) => None,
    }
}

/// Adds a height's mark and number.
fn push_height(
    text: &mut String,
    alloc: Global,
    client: &ClientExplanation,
    known: &KnownHeight,
    x: u64,
    y: u64,
) -> Result<(), AllocError> {
    let area = Area::new(x.saturating_sub(5), y.saturating_sub(5), 10, 10);
    match stored_at(client, known) {
        Some(stored) if stored.expiry > client.window.until().nanoseconds() => {
            push_box(text, "full", area)?;
        }
        Some(_) => {
            push_box(text, "mark", area)?;
            let above = y.saturating_sub(10);
            push_label(text, x, above, Anchor::Middle, "note", "expired")?;
        }
        None => push_circle(text, x, y)?,
    }
    let words = known.height.to_string(alloc)?;
    let below = y.saturating_add(20);
    push_label(text, x, below, Anchor::Middle, "", words.as_str())
}

/// How many of a column's heights are stored.
fn stored_in(client: &ClientExplanation, column: &Column) -> usize {
    let heights = client.heights.iter().skip(column.first).take(column.count);
    heights
        .filter(|known| stored_at(client, known).is_some())
        .count()
}

/// Adds a column that stands for several heights: how many they are, and how many of them are stored.
fn push_others(
    text: &mut String,
    alloc: Global,
    client: &ClientExplanation,
    column: &Column,
    y: u64,
) -> Result<(), AllocError> {
    let x = column.middle;
    let words = format!(in alloc; "{} more", column.count)?;
    let below = y.saturating_add(20);
    push_label(text, x, below, Anchor::Middle, "note", words.as_str())?;
    let stored = stored_in(client, column);
    if stored > 0 {
        let words = format!(in alloc; "{stored} stored")?;
        let above = y.saturating_sub(8);
        push_label(text, x, above, Anchor::Middle, "note", words.as_str())?;
    }
    Ok(())
}

/// Adds the line, which is dotted where heights are left out, and the heights on it.
pub(crate) fn push_heights(
    text: &mut String,
    alloc: Global,
    client: &ClientExplanation,
    columns: &Columns,
    y: u64,
) -> Result<(), AllocError> {
    for column in &columns.list {
        let class = if column.count == 1 { "line" } else { "gap" };
        let from = column.middle.saturating_sub(column.half);
        let to = column.middle.saturating_add(column.half);
        push_line(text, class, from, to, y)?;
    }
    for column in &columns.list {
        match client.heights.get(column.first) {
            Some(known) if column.count == 1 => {
                push_height(text, alloc, client, known, column.middle, y)?;
            }
            _ => push_others(text, alloc, client, column, y)?,
        }
    }
    Ok(())
}

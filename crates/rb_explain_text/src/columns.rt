//! Which of a chain's known heights a picture shows, and where: those that play a part, each in a column of its own; what lies between
//! them is counted in one column.
use rb_base::Height;
use rb_explain::{ClientExplanation, KnownHeight, PlanExplanation, UnreachableExplanation, Why};
use rb_plan_types::Update;
use std::alloc::{AllocError, Global};

/// So many updates from a plan's beginning and from its end are drawn.
const MOST_UPDATES: usize = 6;

/// So many of a bisection's.
const MOST_OTHERS: usize = 5;

/// So many steps that are refused on the way to a goal.
pub(crate) const MOST_REFUSED: usize = 3;

/// So wide is a picture at least.
pub(crate) const LEAST_WIDTH: u64 = 760;

/// So much is left free at the sides.
pub(crate) const MARGIN: u64 = 24;

/// So much wider is a column at most, at both sides, where there is room.
const MOST_SPARE: u64 = 60;

/// A column: a known height and its place, or several neighbours, from the lowest one; the middle, and half of the width.
#[derive(Clone, Copy)]
pub(crate) struct Column {
    pub height: Height,
    pub first: usize,
    pub count: usize,
    pub middle: u64,
    pub half: u64,
}

/// The columns of a picture, and how wide they are in all.
#[derive(Drop)]
pub(crate) struct Columns {
    pub list: Vec<Column>,
    pub width: u64,
}

/// Whether the update at a place, out of so many, is among the first or the last ones.
fn is_near_an_end(place: usize, count: usize, most: usize) -> bool {
    place < most || count.saturating_sub(place) <= most
}

/// Whether a plan's update at a place, out of so many, is drawn.
pub(crate) fn is_drawn(place: usize, count: usize) -> bool {
    is_near_an_end(place, count, MOST_UPDATES)
}

/// Whether a bisection's is.
pub(crate) fn is_other_drawn(place: usize, count: usize) -> bool {
    is_near_an_end(place, count, MOST_OTHERS)
}

/// How many of a plan's updates are not drawn.
pub(crate) fn undrawn(count: usize) -> usize {
    count.saturating_sub(MOST_UPDATES.saturating_mul(2))
}

/// How many of a bisection's are not.
pub(crate) fn others_undrawn(count: usize) -> usize {
    count.saturating_sub(MOST_OTHERS.saturating_mul(2))
}

/// Marks the place of a height.
fn mark(marks: &mut Vec<bool>, heights: &[KnownHeight], height: Height) {
    if let Ok(place) = heights.binary_search_by_key(&height, |known| known.height) {
        if let Some(is_marked) = marks.get_mut(place) {
            *is_marked = true;
        }
    }
}

fn mark_any(marks: &mut Vec<bool>, heights: &[KnownHeight], height: Option<Height>) {
    if let Some(height) = height {
        mark(marks, heights, height);
    }
}

fn mark_list(marks: &mut Vec<bool>, heights: &[KnownHeight], updates: &[Update]) {
    for (place, update) in updates.iter().enumerate() {
        if is_other_drawn(place, updates.len()) {
            mark(marks, heights, update.trusted());
            mark(marks, heights, update.height());
        }
    }
}

/// Marks what a plan's arcs lead from and to.
fn mark_plan(marks: &mut Vec<bool>, heights: &[KnownHeight], plan: &PlanExplanation) {
    let count = plan.steps.len();
    for (place, step) in plan.steps.iter().enumerate() {
        if let Some(step) = step {
            if is_drawn(place, count) {
                mark(marks, heights, step.trusted);
                mark(marks, heights, step.height);
            }
        }
    }
    mark_any(marks, heights, plan.newest);
    if let Some(list) = &plan.bisection {
        mark_list(marks, heights, list.updates.as_slice());
    }
}

/// Marks a wanted height, and the highest from which steps to it are refused.
fn mark_unreachable(marks: &mut Vec<bool>, heights: &[KnownHeight], why: &UnreachableExplanation) {
    mark_any(marks, heights, why.wanted);
    for update in why.tried.iter().take(MOST_REFUSED) {
        mark(marks, heights, update.trusted());
    }
}

/// Which known heights play a part: the lowest and the highest, the highest stored, those that arcs lead from and to, and the height at
/// which messages are proved.
fn marks(
    alloc: Global,
    client: &ClientExplanation,
    proof: Option<Height>,
) -> Result<Vec<bool>, AllocError> {
    let heights = client.heights.as_slice();
    let mut marks = vec![in alloc; false; heights.len()]?;
    let lowest = heights.first().map(|known| known.height);
    let highest = heights.last().map(|known| known.height);
    let newest = client.stored.last().map(|stored| stored.height);
    for height in [lowest, highest, newest, proof] {
        mark_any(&mut marks, heights, height);
    }
    match &client.why {
        Why::Planned(plan) => mark_plan(&mut marks, heights, plan),
        Why::Unreachable(why) => mark_unreachable(&mut marks, heights, why),
        _ => {}
    }
    Ok(marks)
}

/// How many digits a number has.
fn digits(number: u64) -> u64 {
    let mut count: u64 = 1;
    let mut bound: u64 = 10;
    for _ in 1..20 {
        if number >= bound {
            count = count.saturating_add(1);
        }
        bound = bound.saturating_mul(10);
    }
    count
}

/// Half of the width of a column.
fn half_width(column: &Column) -> u64 {
    if column.count == 1 {
        digits(column.height.get())
            .saturating_mul(4)
            .saturating_add(6)
            .max(30)
    } else {
        digits(column.count as u64)
            .saturating_mul(4)
            .saturating_add(24)
    }
}

/// The columns of a client's known heights, from the left to the right.
pub(crate) fn columns_of(
    alloc: Global,
    client: &ClientExplanation,
    proof: Option<Height>,
) -> Result<Columns, AllocError> {
    let marks = marks(alloc, client, proof)?;
    let list = merged(alloc, client.heights.as_slice(), marks.as_slice())?;
    let mut columns = Columns { list, width: 0 };
    columns.set_out(0);
    let spare = LEAST_WIDTH.saturating_sub(columns.width) / 2;
    let count = (columns.list.len() as u64).max(1);
    columns.set_out((spare / count).min(MOST_SPARE));
    Ok(columns)
}

/// A column for each marked height, and one for neighbours that aren't marked; not yet set out.
fn merged(
    alloc: Global,
    heights: &[KnownHeight],
    marks: &[bool],
) -> Result<Vec<Column>, AllocError> {
    let mut list: Vec<Column> = Vec::new(alloc);
    let mut was_marked = true;
    for (first, (known, is_marked)) in heights.iter().zip(marks).enumerate() {
        match list.last_mut() {
            Some(column) if !was_marked && !*is_marked => {
                column.count = column.count.saturating_add(1);
            }
            _ => list.push(Column {
                height: known.height,
                first,
                count: 1,
                middle: 0,
                half: 0,
            })?,
        }
        was_marked = *is_marked;
    }
    Ok(list)
}

impl Columns {
    /// Sets the columns out from the left to the right, each of them at both sides so much wider than it has to be.
    fn set_out(&mut self, spare: u64) {
        let mut width = MARGIN;
        for column in &mut self.list {
            let half = half_width(column).saturating_add(spare);
            column.half = half;
            column.middle = width.saturating_add(half);
            width = column.middle.saturating_add(half);
        }
        self.width = width.saturating_add(MARGIN);
    }

    /// The place of the column that shows a height.
    pub fn place_of(&self, height: Height) -> Option<usize> {
        self.list
            .iter()
            .position(|column| column.count == 1 && column.height == height)
    }

    /// The middle of the column at a place.
    pub fn middle(&self, place: usize) -> u64 {
        match self.list.get(place) {
            Some(column) => column.middle,
            None => 0,
        }
    }
}

//! The steps that a table tells, by what a planner asks of it.
use rb_base::{FeeTable, Fraction, Height, Options, Window};
use rb_graph::Graph;
use std::alloc::Global;
use std::test::Fail;
use test_book::{height, options, second};

/// An accepted step: the header's height, the record's, and the fee.
pub type Step = (u64, u64, u64);

/// Options with a trust level of so many hundredths.
pub fn options_with(level: u64) -> Result<Options, Fail> {
    Ok(options()?.with_trust(Fraction::new(level, 100)?))
}

/// From 200 s to 1,009 s, when no record of 10 s or later has expired.
pub fn wide_window() -> Result<Window, Fail> {
    Ok(Window::new(second(200)?, second(1_009)?)?)
}

/// 1,000, and 100 for each commit vote and 1 for each validator of both sets.
pub fn fees() -> Result<FeeTable, Fail> {
    Ok(FeeTable::new(1000, 100, 1)?)
}

/// Pushes the steps into a height, from all records by rising height.
pub fn push_steps(
    graph: &Graph,
    into: Height,
    options: Options,
    window: Window,
    steps: &mut Vec<Step>,
) -> Result<(), Fail> {
    let target = graph.target(into, options, window, fees()?);
    let records = graph.book().records();
    for place in 0..records.len() {
        if let Some(fee) = target.fee_from(place) {
            steps.push((into.get(), records[place].height().get(), fee))?;
        }
    }
    Ok(())
}

/// The steps in the wide window into the heights from 1 to 12, with a header or not, for a client whose
/// trust level is so many hundredths.
pub fn steps_of(alloc: Global, graph: &Graph, level: u64) -> Result<Vec<Step>, Fail> {
    let (options, window) = (options_with(level)?, wide_window()?);
    let mut steps = Vec::new(alloc);
    for number in 1..=12 {
        push_steps(graph, height(number)?, options, window, &mut steps)?;
    }
    Ok(steps)
}

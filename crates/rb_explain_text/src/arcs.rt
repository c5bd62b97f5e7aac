//! The arcs of a picture: updates, steps that are refused, and what a light client's bisection sends.
use crate::columns::{Columns, MOST_REFUSED, is_drawn, is_other_drawn};
use crate::steps::answer_name;
use crate::svg::{Anchor, Arc, push_arc, push_label};
use rb_base::Height;
use rb_explain::{ClientExplanation, PlanExplanation, StepExplanation, Why};
use rb_plan_types::Update;
use rb_step::Verdict;
use std::alloc::{AllocError, Global};

/// So many columns make an arc higher.
const MOST_SPAN: usize = 10;

/// What an arc stands for.
#[derive(Clone, Copy, PartialEq, Eq)]
pub(crate) enum Meaning {
    /// An update of the plan.
    Update,
    /// A step that is accepted, and isn't the plan.
    Accepted,
    /// A step that is refused.
    Refused,
    /// An update of a bisection.
    Bisection,
}

impl Meaning {
    pub fn class(self) -> &'static str {
        match self {
            Meaning::Update => "arc",
            Meaning::Refused => "refused",
            Meaning::Accepted | Meaning::Bisection => "other",
        }
    }

    fn is_above(self) -> bool {
        self != Meaning::Bisection
    }
}

/// An arc from one column to another, by their places, with its words.
#[derive(Drop)]
pub(crate) struct DrawnArc {
    from: usize,
    to: usize,
    pub meaning: Meaning,
    words: String,
}

impl DrawnArc {
    /// How far its summit is from the line.
    fn rise(&self) -> u64 {
        let span = self.from.abs_diff(self.to).min(MOST_SPAN) as u64;
        if self.meaning.is_above() {
            span.saturating_mul(20).saturating_add(14)
        } else {
            span.saturating_mul(9).saturating_add(10)
        }
    }
}

/// The arcs of a picture, whose columns these are.
#[derive(Drop)]
pub(crate) struct Arcs<'a> {
    alloc: Global,
    columns: &'a Columns,
    pub list: Vec<DrawnArc>,
}

impl<'a> Arcs<'a> {
    /// The arcs of a client's outcome.
    pub fn new(
        alloc: Global,
        client: &ClientExplanation,
        columns: &'a Columns,
    ) -> Result<Arcs<'a>, AllocError> {
        let mut arcs = Arcs {
            alloc,
            columns,
            list: Vec::new(alloc),
        };
        match &client.why {
            Why::Planned(plan) => arcs.add_plan(plan)?,
            Why::Unreachable(why) => {
                for step in why.steps.iter().take(MOST_REFUSED) {
                    arcs.add_answer(step)?;
                }
            }
            _ => {}
        }
        Ok(arcs)
    }

    fn add_plan(&mut self, plan: &PlanExplanation) -> Result<(), AllocError> {
        let count = plan.steps.len();
        for (place, step) in plan.steps.iter().enumerate() {
            if is_drawn(place, count) {
                self.add_update(step)?;
            }
        }
        if plan.is_only_step() {
            return Ok(());
        }
        self.add_answer(&plan.direct)?;
        match &plan.bisection {
            Some(list) => self.add_bisection(list.updates.as_slice()),
            None => Ok(()),
        }
    }

    fn add_update(&mut self, step: &Option<StepExplanation>) -> Result<(), AllocError> {
        let Some(step) = step else {
            return Ok(());
        };
        let words = format!(in self.alloc; "fee {}", step.fee)?;
        self.add(step.trusted, step.height, Meaning::Update, words)
    }

    fn add_bisection(&mut self, updates: &[Update]) -> Result<(), AllocError> {
        for (place, update) in updates.iter().enumerate() {
            if is_other_drawn(place, updates.len()) {
                let words = String::new(self.alloc);
                self.add(update.trusted(), update.height(), Meaning::Bisection, words)?;
            }
        }
        Ok(())
    }

    /// Adds a step that isn't part of a plan, with what the client answers to it.
    fn add_answer(&mut self, step: &Option<StepExplanation>) -> Result<(), AllocError> {
        let Some(step) = step else {
            return Ok(());
        };
        match step.answer {
            Verdict::Success => {
                let words = format!(in self.alloc; "one update: fee {}", step.fee)?;
                self.add(step.trusted, step.height, Meaning::Accepted, words)
            }
            answer => {
                let words = format!(in self.alloc; "refused: {}", answer_name(answer))?;
                self.add(step.trusted, step.height, Meaning::Refused, words)
            }
        }
    }

    /// Adds an arc, where both of its heights are shown.
    fn add(
        &mut self,
        trusted: Height,
        height: Height,
        meaning: Meaning,
        words: String,
    ) -> Result<(), AllocError> {
        let from = self.columns.place_of(trusted);
        let to = self.columns.place_of(height);
        if let (Some(from), Some(to)) = (from, to) {
            self.list.push(DrawnArc {
                from,
                to,
                meaning,
                words,
            })?;
        }
        Ok(())
    }

    /// How far the arcs above the line rise, or how far those below it fall.
    pub fn most_rise(&self, is_above: bool) -> u64 {
        let mut most = 0;
        for arc in &self.list {
            if arc.meaning.is_above() == is_above {
                most = arc.rise().max(most);
            }
        }
        most
    }

    /// Adds the arcs above one line and those below another one, and then their words, so that no arc hides them.
    pub fn push(&self, text: &mut String, above: u64, below: u64) -> Result<(), AllocError> {
        for drawn in &self.list {
            push_arc(text, drawn.meaning.class(), self.arc(drawn, above, below))?;
        }
        for drawn in &self.list {
            let arc = self.arc(drawn, above, below);
            if !drawn.words.is_empty() {
                let y = arc.summit().saturating_sub(4);
                let words = drawn.words.as_str();
                push_label(text, arc.middle(), y, Anchor::Middle, "", words)?;
            }
        }
        Ok(())
    }

    fn arc(&self, drawn: &DrawnArc, above: u64, below: u64) -> Arc {
        let is_above = drawn.meaning.is_above();
        Arc {
            from: self.columns.middle(drawn.from),
            to: self.columns.middle(drawn.to),
            line: if is_above { above } else { below },
            rise: drawn.rise(),
            is_above,
        }
    }
}

//! A turn as a picture: of each client a panel with the known heights along a line, the sets that signed them, what is stored, the plan's
//! updates above the line and a bisection's below it, and the messages at the height that proves them.
use crate::arcs::{Arcs, Meaning};
use crate::bands::{push_bands, push_heights};
use crate::columns::{Columns, LEAST_WIDTH, MARGIN, columns_of, others_undrawn, undrawn};
use crate::moments::push_window;
use crate::packets::message_lines;
use crate::steps::{push_count, push_price};
use crate::svg::{
    Anchor, Arc, Area, push_arc, push_beginning, push_box, push_circle, push_escaped, push_label,
    push_note, push_pointer,
};
use crate::text::{push_client, push_heading};
use rb_base::Height;
use rb_explain::{ClientExplanation, TurnExplanation, Why};
use rb_script_types::Config;
use rb_super_turn::{ClientReport, Outcome, PlanReport, SendingReport};
use std::alloc::{AllocError, Global};

/// So many kinds of messages are told.
const MOST_LINES: usize = 6;

/// So high is the legend.
const LEGEND: u64 = 72;

/// A client's panel, and its size.
#[derive(Drop)]
struct Panel {
    text: String,
    width: u64,
    height: u64,
}

impl Panel {
    /// Makes it wide enough for words that begin at a point, of at most so many pixels a letter.
    fn widen(&mut self, x: u64, words: &str, letter: u64) {
        let length = (words.len() as u64).saturating_mul(letter);
        self.width = self
            .width
            .max(x.saturating_add(length).saturating_add(MARGIN));
    }
}

/// A turn that was explained with the known heights of the chains, as SVG: each of its clients that was explained has a panel. Of no turn
/// the picture has nothing but the legend.
pub fn picture_of(
    alloc: Global,
    config: &Config,
    turn: Option<&TurnExplanation>,
) -> Result<String, AllocError> {
    let Some(turn) = turn else {
        return whole_of(alloc, "no turn", "", LEAST_WIDTH, 0);
    };
    let mut panels = String::new(alloc);
    let mut width = LEAST_WIDTH;
    let mut height: u64 = 0;
    for (report, client) in turn.report.clients.iter().zip(&turn.clients) {
        if let Some(client) = client {
            let panel = panel_of(alloc, config, turn.turn, report, client)?;
            writeln!(&mut panels, "<g transform=\"translate(0 {height})\">")?;
            panels.push_str(panel.text.as_str())?;
            panels.push_str("</g>\n")?;
            width = width.max(panel.width);
            height = height.saturating_add(panel.height);
        }
    }
    let title = format!(in alloc; "turn {}", turn.turn)?;
    whole_of(alloc, title.as_str(), panels.as_str(), width, height)
}

/// The whole picture of panels that are so wide and so high.
fn whole_of(
    alloc: Global,
    title: &str,
    panels: &str,
    width: u64,
    height: u64,
) -> Result<String, AllocError> {
    let mut text = String::new(alloc);
    push_beginning(&mut text, width, height.saturating_add(LEGEND), title)?;
    text.push_str(panels)?;
    writeln!(&mut text, "<g transform=\"translate(0 {height})\">")?;
    push_legend(&mut text)?;
    text.push_str("</g>\n</svg>\n")?;
    Ok(text)
}

fn plan_of(outcome: &Outcome) -> Option<&PlanReport> {
    match outcome {
        Outcome::Planned(planned) => planned.plan.as_ref(),
        _ => None,
    }
}

/// The height that a batch proves its messages at.
fn proof_of(outcome: &Outcome) -> Option<Height> {
    match &plan_of(outcome)?.sending {
        SendingReport::Batch(batch) => Some(batch.proof),
        _ => None,
    }
}

fn panel_of(
    alloc: Global,
    config: &Config,
    turn: usize,
    report: &ClientReport,
    client: &ClientExplanation,
) -> Result<Panel, AllocError> {
    let proof = proof_of(&report.outcome);
    let columns = columns_of(alloc, client, proof)?;
    let mut panel = Panel {
        text: String::new(alloc),
        width: columns.width.max(LEAST_WIDTH),
        height: 0,
    };
    push_words(alloc, &mut panel, config, turn, report, client)?;
    if columns.list.is_empty() {
        return Ok(panel);
    }
    let arcs = Arcs::new(alloc, client, &columns)?;
    let line = panel
        .height
        .saturating_add(arcs.most_rise(true))
        .saturating_add(28);
    let text = &mut panel.text;
    arcs.push(text, line, line.saturating_add(48))?;
    push_heights(text, alloc, client, &columns, line)?;
    push_bands(
        text,
        alloc,
        client.heights.as_slice(),
        &columns,
        line.saturating_add(28),
    )?;
    panel.height = line
        .saturating_add(arcs.most_rise(false))
        .saturating_add(58);
    push_sent(alloc, &mut panel, config, &columns, &report.outcome)?;
    Ok(panel)
}

/// Adds what the panel says in words: what is wanted, the window, the plan; and the client's whole explanation as its description.
fn push_words(
    alloc: Global,
    panel: &mut Panel,
    config: &Config,
    turn: usize,
    report: &ClientReport,
    client: &ClientExplanation,
) -> Result<(), AllocError> {
    let mut whole = String::new(alloc);
    push_client(alloc, &mut whole, config, turn, report, client, 20)?;
    panel.text.push_str("<desc>")?;
    push_escaped(&mut panel.text, whole.as_str())?;
    panel.text.push_str("</desc>\n")?;
    let mut heading = String::new(alloc);
    push_heading(&mut heading, config, turn, report, client)?;
    panel.widen(MARGIN, heading.as_str(), 9);
    let text = &mut panel.text;
    push_label(text, MARGIN, 26, Anchor::Left, "title", heading.as_str())?;
    let mut window = String::new(alloc);
    push_window(&mut window, &client.window)?;
    push_note(text, MARGIN, 46, window.as_str())?;
    let mut plan = String::new(alloc);
    push_plan(&mut plan, report, client)?;
    push_label(text, MARGIN, 64, Anchor::Left, "", plan.as_str())?;
    panel.widen(MARGIN, plan.as_str(), 7);
    panel.height = 72;
    Ok(())
}

/// Adds the plan in a line, and the lists beside it.
fn push_plan(
    text: &mut String,
    report: &ClientReport,
    client: &ClientExplanation,
) -> Result<(), AllocError> {
    let (Some(plan), Why::Planned(why)) = (plan_of(&report.outcome), &client.why) else {
        return Ok(());
    };
    let count = plan.updates.len();
    text.push_str("plan: ")?;
    push_count(text, count, "update")?;
    write!(text, ", fee {}", plan.total.fee)?;
    push_undrawn(text, undrawn(count))?;
    push_price(text, "; fewest updates", &why.fewest, "not searched")?;
    if why.direct.is_some() {
        push_price(text, "; as a light client bisects", &why.bisection, "none")?;
        if let Some(list) = &why.bisection {
            push_undrawn(text, others_undrawn(list.updates.len()))?;
        }
    }
    Ok(())
}

/// Adds how many updates are not drawn, if any aren't.
fn push_undrawn(text: &mut String, count: usize) -> Result<(), AllocError> {
    if count > 0 {
        write!(text, " ({count} of them not drawn)")?;
    }
    Ok(())
}

/// Adds the messages that are sent, below the height that proves them.
fn push_sent(
    alloc: Global,
    panel: &mut Panel,
    config: &Config,
    columns: &Columns,
    outcome: &Outcome,
) -> Result<(), AllocError> {
    let (Some(plan), Some(proof)) = (plan_of(outcome), proof_of(outcome)) else {
        return Ok(());
    };
    let lines = message_lines(alloc, config, plan.messages.as_slice())?;
    let Some(place) = columns.place_of(proof) else {
        return Ok(());
    };
    if lines.is_empty() {
        return Ok(());
    }
    let x = columns.middle(place);
    push_pointer(&mut panel.text, x, panel.height)?;
    panel.height = panel.height.saturating_add(24);
    for line in lines.iter().take(MOST_LINES) {
        push_message(panel, x, line.as_str())?;
    }
    if lines.len() > MOST_LINES {
        push_message(panel, x, "and more")?;
    }
    Ok(())
}

/// Adds a line of messages, which ends at a point where it would else make the panel wider.
fn push_message(panel: &mut Panel, x: u64, words: &str) -> Result<(), AllocError> {
    let length = (words.len() as u64)
        .saturating_mul(7)
        .saturating_add(MARGIN);
    let anchor = if x.saturating_add(length) > panel.width && x >= length {
        Anchor::Right
    } else {
        panel.widen(x, words, 7);
        Anchor::Left
    };
    push_label(&mut panel.text, x, panel.height, anchor, "", words)?;
    panel.height = panel.height.saturating_add(16);
    Ok(())
}

/// Adds what the shapes mean.
fn push_legend(text: &mut String) -> Result<(), AllocError> {
    push_sample(text, Meaning::Update, 24, 22)?;
    push_note(text, 68, 22, "an update of the plan, with its fee")?;
    push_sample(text, Meaning::Refused, 310, 22)?;
    push_note(text, 354, 22, "a step that is refused, with the reason")?;
    push_sample(text, Meaning::Bisection, 24, 40)?;
    push_note(text, 68, 42, "below: as a light client bisects")?;
    push_box(text, "full", Area::new(310, 34, 10, 10))?;
    push_note(text, 328, 43, "stored")?;
    push_circle(text, 397, 39)?;
    push_note(text, 408, 43, "header")?;
    push_box(text, "s0", Area::new(470, 32, 26, 14))?;
    push_note(text, 502, 43, "the set that signed")?;
    push_pointer(text, 315, 52)?;
    push_note(
        text,
        328,
        62,
        "packet messages, at the height that proves them",
    )
}

/// Adds an arc of the legend.
fn push_sample(text: &mut String, meaning: Meaning, x: u64, y: u64) -> Result<(), AllocError> {
    let is_above = meaning != Meaning::Bisection;
    push_arc(
        text,
        meaning.class(),
        Arc {
            from: x,
            to: x.saturating_add(34),
            line: if is_above { y } else { y.saturating_sub(8) },
            rise: 10,
            is_above,
        },
    )
}

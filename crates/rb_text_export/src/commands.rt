//! The commands that a relayer (Hermes) runs for a report.
ghost use Rattle.std.specs.Prelude.{◌≡◌, ◌++◌, [], map, slice_index_or, IfOk, OnOk, string_bytes};
ghost use Rattle.std.specs.List.{enumerate_from, flat_map};
ghost use Rattle.std.specs.Option.{option_map};
ghost use Rattle.rb_script_types.specs.Config.{config_view};
ghost use Rattle.rb_super_turn.specs.Views.{client_report_view, outcome_view, plan_view, priced_view, refused_view, report_view, sending_view, turn_report_view};
ghost use Rattle.rb_text_export.specs.Windows.{in_force_view, setting_view};
ghost use Rattle.rb_text_export.specs.Commands.{all_refused_text, back_text, client_head, client_text, commands_text, heights_text, host_of, host_window_line, host_window_text, hosts_window_text, is_wanted, lines_text, outcome_text, own_window_line, plan_text, planned_text, refusal_text, refused_host_line, refused_host_text, refused_line, refused_window_text, sent_text, span_text, total_text, turn_name, turn_text, until_text, update_line, wanted_text, window_text, windows_text};

use crate::packet_commands::push_packets;
use crate::windows::{InForce, Setting};
use crate::words::push_option;
use rb_base::{Moment, Window};
use rb_script_text::push_moment;
use rb_script_types::Config;
use rb_super_turn::{
    ClientReport, Outcome, PlanReport, PricedUpdate, RefusedEvent, Report, SendingReport,
    TurnReport,
};
use rb_want_requests::own_id;
use std::alloc::{AllocError, Global};

/// The commands for a report of the script with this setting, those of every turn or of the one with this
/// number, from 1: for each turn comments that say in which windows its updates are valid, those in force, and what is
/// refused of its windows and events; then for each client a comment of what came of it, and after it a line for each
/// update, in the order in which they are submitted, and a line for the packet messages of each path and kind; none of both
/// where a message is over the gas limit alone.
pub fn commands_of(
    alloc: Global,
    setting: &Setting,
    report: &Report,
    wanted: Option<u64>,
) -> Result<String, AllocError>
    ensures { IfOk result (λ text. string_bytes text ≡ commands_text (setting_view setting.now) wanted (report_view report.now)) }
{
    let mut text = String::new(alloc);
    push_turns(alloc, &mut text, setting, wanted, report.turns.as_slice())?;
    Ok(text)
}

fn push_turns(
    alloc: Global,
    text: &mut String,
    setting: &Setting,
    wanted: Option<u64>,
    turns: &[TurnReport],
) -> Result<(), AllocError>
    ensures { OnOk result (string_bytes text.new ≡ string_bytes text.old ++ commands_text (setting_view setting.now) wanted (map turn_report_view turns.now)) }
{
    let mut in_force = InForce::before_all(alloc, setting.config.chains.as_slice())?;
    for (place, turn) in turns.iter().enumerate() {
        let now = setting.in_turn(alloc, place, turn, &in_force)?;
        push_wanted(text, &setting.config, wanted, place, &now, turn)?;
        in_force = now;
    }
    Ok(())
}

/// Adds the commands of the turn at a place, if they are wanted, with the windows in force.
fn push_wanted(
    text: &mut String,
    config: &Config,
    wanted: Option<u64>,
    place: usize,
    in_force: &InForce,
    turn: &TurnReport,
) -> Result<(), AllocError>
    ensures { OnOk result (string_bytes text.new ≡ string_bytes text.old ++ wanted_text (config_view config.now) wanted place (in_force_view in_force.now) (turn_report_view turn.now)) }
{
    let number = place as u128 + 1;
    if is_wanted(wanted, number) {
        push_turn(text, number, config, in_force, turn)
    } else {
        Ok(())
    }
}

/// Whether the commands of the turn with this number are wanted.
fn is_wanted(wanted: Option<u64>, number: u128) -> bool
    ensures { result ≡ is_wanted wanted number }
{
    match wanted {
        Some(wanted) => u128::from(wanted) == number,
        None => true,
    }
}

/// Adds a turn: in which windows updates are valid, what is refused, and what came of clients.
#[tactic(auto, using(crate::proofs::Added::added), unfolding(crate::specs::Commands::turn_text))]
fn push_turn(
    text: &mut String,
    turn: u128,
    config: &Config,
    in_force: &InForce,
    report: &TurnReport,
) -> Result<(), AllocError>
    ensures { OnOk result (string_bytes text.new ≡ string_bytes text.old ++ turn_text (config_view config.now) turn (in_force_view in_force.now) (turn_report_view report.now)) }
{
    push_windows(text, turn, config, in_force)?;
    push_all_refused(text, turn, config, report)?;
    push_clients(text, turn, config, report.clients.as_slice())
}

#[tactic(auto, using(crate::proofs::Added::added), unfolding(crate::specs::Commands::windows_text))]
fn push_windows(
    text: &mut String,
    turn: u128,
    config: &Config,
    in_force: &InForce,
) -> Result<(), AllocError>
    ensures { OnOk result (string_bytes text.new ≡ string_bytes text.old ++ windows_text (config_view config.now).chains turn (in_force_view in_force.now)) }
{
    push_window(text, turn, in_force.window)?;
    push_host_windows(text, turn, config, in_force.hosts.as_slice())
}

fn push_window(text: &mut String, turn: u128, window: Option<Window>) -> Result<(), AllocError>
    ensures { OnOk result (string_bytes text.new ≡ string_bytes text.old ++ window_text turn window) }
{
    match window {
        Some(window) => push_own_window(text, turn, window),
        None => Ok(()),
    }
}

#[tactic(auto, using(crate::proofs::Added::added), unfolding(crate::specs::Commands::own_window_line))]
fn push_own_window(text: &mut String, turn: u128, window: Window) -> Result<(), AllocError>
    ensures { OnOk result (string_bytes text.new ≡ string_bytes text.old ++ own_window_line turn window) }
{
    push_turn_name(text, turn)?;
    text.push_str(": valid from ")?;
    push_span(text, window)
}

/// Adds the beginning of a turn's comment.
#[tactic(auto, unfolding(crate::specs::Commands::turn_name))]
fn push_turn_name(text: &mut String, turn: u128) -> Result<(), AllocError>
    ensures { OnOk result (string_bytes text.new ≡ string_bytes text.old ++ turn_name turn) }
{
    write!(text, "# turn {turn}")
}

/// Adds the beginning of a window, and its end.
#[tactic(auto, using(crate::proofs::Added::added), unfolding(crate::specs::Commands::span_text))]
fn push_span(text: &mut String, window: Window) -> Result<(), AllocError>
    ensures { OnOk result (string_bytes text.new ≡ string_bytes text.old ++ span_text window) }
{
    push_moment(text, window.from())?;
    push_until(text, window.until())
}

#[tactic(auto, unfolding(crate::specs::Commands::until_text))]
fn push_until(text: &mut String, until: Moment) -> Result<(), AllocError>
    ensures { OnOk result (string_bytes text.new ≡ string_bytes text.old ++ until_text until) }
{
    text.push_str(" until ")?;
    push_moment(text, until)?;
    text.push_str("\n")
}

fn push_host_windows(
    text: &mut String,
    turn: u128,
    config: &Config,
    windows: &[Option<Window>],
) -> Result<(), AllocError>
    ensures { OnOk result (string_bytes text.new ≡ string_bytes text.old ++ flat_map (host_window_text (config_view config.now).chains turn) (enumerate_from 0 windows.now)) }
{
    for (host, window) in windows.iter().enumerate() {
        push_host_window(text, turn, chain_at(config, host), *window)?;
    }
    Ok(())
}

/// Adds in which window updates are valid on a host, if it has one of its own.
fn push_host_window(
    text: &mut String,
    turn: u128,
    host: &str,
    window: Option<Window>,
) -> Result<(), AllocError>
    ensures { OnOk result (string_bytes text.new ≡ string_bytes text.old ++ hosts_window_text turn host.now window) }
{
    match window {
        Some(window) => push_hosts_window(text, turn, host, window),
        None => Ok(()),
    }
}

#[tactic(auto, using(crate::proofs::Added::added), unfolding(crate::specs::Commands::host_window_line))]
fn push_hosts_window(
    text: &mut String,
    turn: u128,
    host: &str,
    window: Window,
) -> Result<(), AllocError>
    ensures { OnOk result (string_bytes text.new ≡ string_bytes text.old ++ host_window_line turn host.now window) }
{
    write!(text, "# turn {turn} host {host}: valid from ")?;
    push_span(text, window)
}

/// Adds what is refused in a turn: windows of hosts, its own, and events.
#[tactic(auto, using(crate::proofs::Added::added), unfolding(crate::specs::Commands::all_refused_text))]
fn push_all_refused(
    text: &mut String,
    turn: u128,
    config: &Config,
    report: &TurnReport,
) -> Result<(), AllocError>
    ensures { OnOk result (string_bytes text.new ≡ string_bytes text.old ++ all_refused_text (config_view config.now).chains turn (turn_report_view report.now)) }
{
    push_refused_hosts(text, turn, config, report.hosts_back.as_slice())?;
    push_refused_window(text, turn, report.window_back)?;
    push_refusals(text, turn, report.refused.as_slice())
}

fn push_refused_hosts(
    text: &mut String,
    turn: u128,
    config: &Config,
    hosts: &[usize],
) -> Result<(), AllocError>
    ensures { OnOk result (string_bytes text.new ≡ string_bytes text.old ++ flat_map (refused_host_text (config_view config.now).chains turn) hosts.now) }
{
    for host in hosts {
        push_refused_host(text, turn, chain_at(config, *host))?;
    }
    Ok(())
}

#[tactic(auto, using(crate::proofs::Added::added), unfolding(crate::specs::Commands::refused_host_line))]
fn push_refused_host(text: &mut String, turn: u128, host: &str) -> Result<(), AllocError>
    ensures { OnOk result (string_bytes text.new ≡ string_bytes text.old ++ refused_host_line turn host.now) }
{
    push_turn_name(text, turn)?;
    push_back(text, host)
}

#[tactic(auto, unfolding(crate::specs::Commands::back_text))]
fn push_back(text: &mut String, host: &str) -> Result<(), AllocError>
    ensures { OnOk result (string_bytes text.new ≡ string_bytes text.old ++ back_text host.now) }
{
    writeln!(text, ": refused window {host} 806 WindowBack")
}

fn push_refused_window(text: &mut String, turn: u128, is_back: bool) -> Result<(), AllocError>
    ensures { OnOk result (string_bytes text.new ≡ string_bytes text.old ++ refused_window_text turn is_back) }
{
    if is_back {
        writeln!(text, "# turn {turn}: refused window 806 WindowBack")
    } else {
        Ok(())
    }
}

fn push_refusals(text: &mut String, turn: u128, refusals: &[RefusedEvent]) -> Result<(), AllocError>
    ensures { OnOk result (string_bytes text.new ≡ string_bytes text.old ++ flat_map (refused_line turn) (map refused_view refusals.now)) }
{
    for refused in refusals {
        push_refused(text, turn, refused)?;
    }
    Ok(())
}

#[tactic(auto, using(crate::proofs::Added::added), unfolding(crate::specs::Commands::refused_line))]
fn push_refused(text: &mut String, turn: u128, refused: &RefusedEvent) -> Result<(), AllocError>
    ensures { OnOk result (string_bytes text.new ≡ string_bytes text.old ++ refused_line turn (refused_view refused.now)) }
{
    let event = refused.event;
    write!(text, "# turn {turn}: refused event {event} ")?;
    push_refusal(text, refused.refusal.number(), refused.refusal.name())
}

#[tactic(auto, unfolding(crate::specs::Commands::refusal_text))]
fn push_refusal(text: &mut String, number: u16, name: &str) -> Result<(), AllocError>
    ensures { OnOk result (string_bytes text.new ≡ string_bytes text.old ++ refusal_text number name.now) }
{
    writeln!(text, "{number} {name}")
}

fn push_clients(
    text: &mut String,
    turn: u128,
    config: &Config,
    clients: &[ClientReport],
) -> Result<(), AllocError>
    ensures { OnOk result (string_bytes text.new ≡ string_bytes text.old ++ flat_map (client_text (config_view config.now) turn) (enumerate_from 0 (map client_report_view clients.now))) }
{
    for (place, client) in clients.iter().enumerate() {
        push_client(text, turn, config, place, client)?;
    }
    Ok(())
}

/// Adds what came of the client at a place.
#[tactic(auto, using(crate::proofs::Added::added), unfolding(crate::specs::Commands::client_text))]
fn push_client(
    text: &mut String,
    turn: u128,
    config: &Config,
    place: usize,
    client: &ClientReport,
) -> Result<(), AllocError>
    ensures { OnOk result (string_bytes text.new ≡ string_bytes text.old ++ client_text (config_view config.now) turn (place, client_report_view client.now)) }
{
    let id = client.id.as_str();
    push_client_head(text, turn, id)?;
    push_outcome(text, config, host_of(config, place), id, &client.outcome)
}

#[tactic(auto, unfolding(crate::specs::Commands::client_head))]
fn push_client_head(text: &mut String, turn: u128, id: &str) -> Result<(), AllocError>
    ensures { OnOk result (string_bytes text.new ≡ string_bytes text.old ++ client_head turn id.now) }
{
    write!(text, "# turn {turn} client {id}: ")
}

/// The identifier of the chain that hosts the client at a place.
fn host_of(config: &Config, client: usize) -> &str
    ensures { result.now ≡ host_of (config_view config.entry.now) client }
{
    match config.clients.get(client) {
        Some(client) => chain_at(config, client.host),
        None => "",
    }
}

/// The identifier of the chain at a place.
pub(crate) fn chain_at(config: &Config, place: usize) -> &str
    ensures { result.now ≡ slice_index_or (config_view config.entry.now).chains place [] }
{
    match config.chains.get(place) {
        Some(chain) => chain.as_str(),
        None => "",
    }
}

fn push_outcome(
    text: &mut String,
    config: &Config,
    host: &str,
    id: &str,
    outcome: &Outcome,
) -> Result<(), AllocError>
    ensures { OnOk result (string_bytes text.new ≡ string_bytes text.old ++ outcome_text (config_view config.now) host.now id.now (outcome_view outcome.now)) }
{
    match outcome {
        Outcome::Held(batch) => writeln!(text, "held by batch {batch}"),
        Outcome::Idle(_) => text.push_str("idle\n"),
        Outcome::Planned(planned) => push_planned(text, config, host, id, &planned.plan),
    }
}

fn push_planned(
    text: &mut String,
    config: &Config,
    host: &str,
    id: &str,
    plan: &Option<PlanReport>,
) -> Result<(), AllocError>
    ensures { OnOk result (string_bytes text.new ≡ string_bytes text.old ++ planned_text (config_view config.now) host.now id.now (option_map plan_view plan.now)) }
{
    match plan {
        Some(plan) => push_plan(text, config, host, id, plan),
        None => text.push_str("unreachable\n"),
    }
}

#[tactic(auto, using(crate::proofs::Added::added), unfolding(crate::specs::Commands::plan_text))]
fn push_plan(
    text: &mut String,
    config: &Config,
    host: &str,
    id: &str,
    plan: &PlanReport,
) -> Result<(), AllocError>
    ensures { OnOk result (string_bytes text.new ≡ string_bytes text.old ++ plan_text (config_view config.now) host.now id.now (plan_view plan.now)) }
{
    push_total(text, plan)?;
    push_sent(text, config, host, own_id(host, id), plan)
}

/// Adds what a plan costs, and how many packet messages it has, if it has some.
#[tactic(auto, unfolding(crate::specs::Commands::total_text))]
fn push_total(text: &mut String, plan: &PlanReport) -> Result<(), AllocError>
    ensures { OnOk result (string_bytes text.new ≡ string_bytes text.old ++ total_text (plan_view plan.now)) }
{
    let fee = plan.total.fee;
    let updates = plan.total.count;
    let count = plan.messages.len();
    write!(text, "total fee {fee}, updates {updates}")?;
    if count == 0 {
        Ok(())
    } else {
        write!(text, ", packet messages {count}")
    }
}

/// Adds the lines of a plan, or why there are none.
fn push_sent(
    text: &mut String,
    config: &Config,
    host: &str,
    id: &str,
    plan: &PlanReport,
) -> Result<(), AllocError>
    ensures { OnOk result (string_bytes text.new ≡ string_bytes text.old ++ sent_text (config_view config.now) host.now id.now (plan_view plan.now) (sending_view plan.now.sending)) }
{
    match &plan.sending {
        SendingReport::TooBig(message) => {
            writeln!(text, ", message {message} over the gas limit: no batch")
        }
        SendingReport::Nothing | SendingReport::Batch(_) => {
            push_lines(text, config, host, id, plan)
        }
    }
}

#[tactic(auto, using(crate::proofs::Added::added), unfolding(crate::specs::Commands::lines_text))]
fn push_lines(
    text: &mut String,
    config: &Config,
    host: &str,
    id: &str,
    plan: &PlanReport,
) -> Result<(), AllocError>
    ensures { OnOk result (string_bytes text.new ≡ string_bytes text.old ++ lines_text (config_view config.now) host.now id.now (plan_view plan.now)) }
{
    text.push_str("\n")?;
    push_updates(text, host, id, plan.updates.as_slice())?;
    push_packets(text, config, plan.messages.as_slice())
}

fn push_updates(
    text: &mut String,
    host: &str,
    id: &str,
    updates: &[PricedUpdate],
) -> Result<(), AllocError>
    ensures { OnOk result (string_bytes text.new ≡ string_bytes text.old ++ flat_map (update_line host.now id.now) (map priced_view updates.now)) }
{
    for update in updates {
        push_update(text, host, id, update)?;
    }
    Ok(())
}

fn push_update(
    text: &mut String,
    host: &str,
    id: &str,
    priced: &PricedUpdate,
) -> Result<(), AllocError>
    ensures { OnOk result (string_bytes text.new ≡ string_bytes text.old ++ update_line host.now id.now (priced_view priced.now)) }
{
    push_option(text, "hermes update client --host-chain ", host)?;
    push_option(text, " --client ", id)?;
    push_heights(text, priced)
}

#[tactic(auto, unfolding(crate::specs::Commands::heights_text))]
fn push_heights(text: &mut String, priced: &PricedUpdate) -> Result<(), AllocError>
    ensures { OnOk result (string_bytes text.new ≡ string_bytes text.old ++ heights_text (priced_view priced.now)) }
{
    let height = priced.update.height();
    let trusted = priced.update.trusted();
    writeln!(text, " --height {height} --trusted-height {trusted}")
}

//! A report as JSON. Identifiers have no character that JSON escapes.
ghost use Rattle.std.specs.Prelude.{◌≡◌, ◌++◌, ◌∷◌, [], false, codes, map, slice_index_or, IfOk, OnOk, string_bytes};
ghost use Rattle.std.specs.List.{flat_map};
ghost use Rattle.std.specs.Option.{option_map};
ghost use Rattle.rb_step.specs.Sent.{sent_view};
ghost use Rattle.rb_super_turn.specs.Report.{batched, planned as outcome_planned};
ghost use Rattle.rb_super_turn.specs.Views.{refused_view, priced_view, batch_view, sending_view, plan_view, planned_view, outcome_view, client_report_view, settlement_view, turn_report_view, report_view};
ghost use Rattle.rb_script_text.specs.Json.{array, boolean, json_text, members_of, members_text, more_text, ◌is◌};
ghost use Rattle.rb_text_export.specs.ReportJson.{address_json, byte_digits, beyond_members, came_members, client_json, client_members, host_json, if_refused, label_json, labelled_members, left_members, message_json, outcome_members, plan_members, planned_word, reached_members, refused_json, report_members, sending_members, settled_members, settlement_json, total_json, transaction_json, numbered_turn_json, numbered_turn_line, turn_json, turn_members, update_json, votes_members, windows_members};

use rb_base::{ChainId, Moment, PathId};
use rb_batch::Transaction;
use rb_plan_client::Message;
use rb_plan_types::{Cost, Label};
use rb_script_text::{
    format_of, kind_name, push_boolean, push_comma, push_goal, push_name, push_next, push_number,
    push_refusal, push_string, push_text,
};
use rb_script_types::{Goal, Refusal, Version};
use rb_step::SentVotes;
use rb_super_turn::{
    BatchReport, ClientReport, Outcome, PlanReport, PlannedReport, PricedUpdate, RefusedEvent,
    Report, SendingReport, SettlementReport, TurnReport,
};
use std::alloc::{AllocError, Global};

/// Adds the first members of the report's object: the number of the format, and the turns.
pub fn push_report(text: &mut String, report: &Report) -> Result<(), AllocError>
    ensures { OnOk result (string_bytes text.new
        ≡ string_bytes text.old ++ members_text false (members_of (report_members report.now.version report.now.chains.items report.now.paths.items (report_view report.now)))) }
{
    let version = report.version;
    push_number(text, false, "ibcplan", format_of(version))?;
    push_name(text, true, "turns")?;
    push_turns(
        text,
        version,
        report.chains.as_slice(),
        report.paths.as_slice(),
        report.turns.as_slice(),
    )
}

/// The report of a turn as one object of JSON, as it stands in that of the script, behind its number, and a line feed.
/// The identifiers of the chains and of the paths are by their places.
pub fn json_of_turn(
    alloc: Global,
    number: u64,
    version: Version,
    chains: &[ChainId],
    paths: &[PathId],
    turn: &TurnReport,
) -> Result<String, AllocError>
    ensures json { IfOk result (λ text. string_bytes text ≡ numbered_turn_line number version chains.now paths.now (turn_report_view turn.now)) }
{
    let mut text = String::new(alloc);
    push_numbered_turn(&mut text, number, version, chains, paths, turn)?;
    text.push_str("\n")?;
    Ok(text)
}

fn push_numbered_turn(
    text: &mut String,
    number: u64,
    version: Version,
    chains: &[ChainId],
    paths: &[PathId],
    turn: &TurnReport,
) -> Result<(), AllocError>
    ensures { OnOk result (string_bytes text.new ≡ string_bytes text.old ++ json_text (numbered_turn_json number version chains.now paths.now (turn_report_view turn.now))) }
{
    text.push_str("{")?;
    push_number(text, false, "turn", number)?;
    push_window_back(text, version, chains, paths, turn)?;
    text.push_str("}")
}

/// Adds what stands behind a turn's number.
fn push_window_back(
    text: &mut String,
    version: Version,
    chains: &[ChainId],
    paths: &[PathId],
    turn: &TurnReport,
) -> Result<(), AllocError>
    ensures { OnOk result (string_bytes text.new
        ≡ string_bytes text.old ++ more_text (codes "window_back" is boolean (turn_report_view turn.now).window_back ∷ turn_members version chains.now paths.now (turn_report_view turn.now))) }
{
    push_boolean(text, true, "window_back", turn.window_back)?;
    push_turn_members(text, version, chains, paths, turn)
}

fn push_turns(
    text: &mut String,
    version: Version,
    chains: &[ChainId],
    paths: &[PathId],
    turns: &[TurnReport],
) -> Result<(), AllocError>
    ensures { OnOk result (string_bytes text.new
        ≡ string_bytes text.old ++ json_text (array (map (turn_json version chains.now paths.now) (map turn_report_view turns.now)))) }
{
    text.push_str("[")?;
    for (place, turn) in turns.iter().enumerate() {
        push_comma(text, place > 0)?;
        push_turn(text, version, chains, paths, turn)?;
    }
    text.push_str("]")
}

fn push_turn(
    text: &mut String,
    version: Version,
    chains: &[ChainId],
    paths: &[PathId],
    turn: &TurnReport,
) -> Result<(), AllocError>
    ensures { OnOk result (string_bytes text.new ≡ string_bytes text.old ++ json_text (turn_json version chains.now paths.now (turn_report_view turn.now))) }
{
    text.push_str("{")?;
    push_boolean(text, false, "window_back", turn.window_back)?;
    push_turn_members(text, version, chains, paths, turn)?;
    text.push_str("}")
}

/// Adds what stands behind whether the turn's window was refused.
#[tactic(auto, using(rb_script_text::proofs::Added::more_append), unfolding(crate::specs::ReportJson::turn_members))]
fn push_turn_members(
    text: &mut String,
    version: Version,
    chains: &[ChainId],
    paths: &[PathId],
    turn: &TurnReport,
) -> Result<(), AllocError>
    ensures { OnOk result (string_bytes text.new
        ≡ string_bytes text.old ++ more_text (turn_members version chains.now paths.now (turn_report_view turn.now))) }
{
    push_windows(text, version, chains, turn.hosts_back.as_slice())?;
    push_came(text, version, paths, turn)
}

/// Adds the hosts whose own windows were refused, from version 4 on.
fn push_windows(
    text: &mut String,
    version: Version,
    chains: &[ChainId],
    hosts: &[usize],
) -> Result<(), AllocError>
    ensures { OnOk result (string_bytes text.new ≡ string_bytes text.old ++ more_text (windows_members version chains.now hosts.now)) }
{
    match version {
        Version::Four => {
            push_name(text, true, "windows_back")?;
            push_hosts(text, chains, hosts)
        }
        Version::One | Version::Two | Version::Three => Ok(()),
    }
}

fn push_hosts(text: &mut String, chains: &[ChainId], hosts: &[usize]) -> Result<(), AllocError>
    ensures { OnOk result (string_bytes text.new ≡ string_bytes text.old ++ json_text (array (map (host_json chains.now) hosts.now))) }
{
    text.push_str("[")?;
    for (place, host) in hosts.iter().enumerate() {
        push_comma(text, place > 0)?;
        push_host(text, chains, *host)?;
    }
    text.push_str("]")
}

fn push_host(text: &mut String, chains: &[ChainId], host: usize) -> Result<(), AllocError>
    ensures { OnOk result (string_bytes text.new ≡ string_bytes text.old ++ json_text (host_json chains.now host)) }
{
    push_string(text, chain_of(chains, host))
}

/// The identifier of the chain at a place.
fn chain_of(chains: &[ChainId], chain: usize) -> &str
    ensures { result.now ≡ slice_index_or chains.now chain [] }
{
    match chains.get(chain) {
        Some(id) => id.as_str(),
        None => "",
    }
}

/// Adds what came of the events, the clients and the settlements.
#[tactic(auto, unfolding(crate::specs::ReportJson::came_members))]
fn push_came(
    text: &mut String,
    version: Version,
    paths: &[PathId],
    turn: &TurnReport,
) -> Result<(), AllocError>
    ensures { OnOk result (string_bytes text.new ≡ string_bytes text.old ++ more_text (came_members version paths.now (turn_report_view turn.now))) }
{
    push_name(text, true, "refused")?;
    push_refusals(text, turn.refused.as_slice())?;
    push_name(text, true, "clients")?;
    push_clients(text, version, paths, turn.clients.as_slice())?;
    push_name(text, true, "settlements")?;
    push_settlements(text, turn.settlements.as_slice())
}

fn push_refusals(text: &mut String, refusals: &[RefusedEvent]) -> Result<(), AllocError>
    ensures { OnOk result (string_bytes text.new ≡ string_bytes text.old ++ json_text (array (map refused_json (map refused_view refusals.now)))) }
{
    text.push_str("[")?;
    for (place, refused) in refusals.iter().enumerate() {
        push_comma(text, place > 0)?;
        push_refused(text, refused)?;
    }
    text.push_str("]")
}

fn push_clients(
    text: &mut String,
    version: Version,
    paths: &[PathId],
    clients: &[ClientReport],
) -> Result<(), AllocError>
    ensures { OnOk result (string_bytes text.new
        ≡ string_bytes text.old ++ json_text (array (map (client_json version paths.now) (map client_report_view clients.now)))) }
{
    text.push_str("[")?;
    for (place, client) in clients.iter().enumerate() {
        push_comma(text, place > 0)?;
        push_client(text, version, paths, client)?;
    }
    text.push_str("]")
}

fn push_settlements(text: &mut String, settlements: &[SettlementReport]) -> Result<(), AllocError>
    ensures { OnOk result (string_bytes text.new
        ≡ string_bytes text.old ++ json_text (array (map settlement_json (map settlement_view settlements.now)))) }
{
    text.push_str("[")?;
    for (place, settlement) in settlements.iter().enumerate() {
        push_comma(text, place > 0)?;
        push_settlement(text, settlement)?;
    }
    text.push_str("]")
}

fn push_refused(text: &mut String, refused: &RefusedEvent) -> Result<(), AllocError>
    ensures { OnOk result (string_bytes text.new ≡ string_bytes text.old ++ json_text (refused_json (refused_view refused.now))) }
{
    text.push_str("{")?;
    push_number(text, false, "event", refused.event as u64)?;
    push_refusal(text, &refused.refusal)?;
    text.push_str("}")
}

fn push_settlement(text: &mut String, settlement: &SettlementReport) -> Result<(), AllocError>
    ensures { OnOk result (string_bytes text.new ≡ string_bytes text.old ++ json_text (settlement_json (settlement_view settlement.now))) }
{
    text.push_str("{")?;
    push_text(text, false, "client", settlement.id.as_str())?;
    push_settled(text, settlement)?;
    text.push_str("}")
}

/// Adds what stands behind the client.
fn push_settled(text: &mut String, settlement: &SettlementReport) -> Result<(), AllocError>
    ensures { OnOk result (string_bytes text.new ≡ string_bytes text.old ++ more_text (settled_members (settlement_view settlement.now))) }
{
    push_number(text, true, "batch", settlement.batch)?;
    push_number(text, true, "done", settlement.done as u64)?;
    push_if_refused(text, &settlement.refusal)
}

fn push_if_refused(text: &mut String, refusal: &Option<Refusal>) -> Result<(), AllocError>
    ensures { OnOk result (string_bytes text.new ≡ string_bytes text.old ++ more_text (if_refused refusal.now)) }
{
    match refusal {
        Some(refusal) => push_refusal(text, refusal),
        None => Ok(()),
    }
}

fn push_client(
    text: &mut String,
    version: Version,
    paths: &[PathId],
    client: &ClientReport,
) -> Result<(), AllocError>
    ensures { OnOk result (string_bytes text.new ≡ string_bytes text.old ++ json_text (client_json version paths.now (client_report_view client.now))) }
{
    text.push_str("{")?;
    push_text(text, false, "id", client.id.as_str())?;
    push_client_members(text, version, paths, client)?;
    text.push_str("}")
}

/// Adds what came of a client, and what of its messages is left out.
#[tactic(auto, using(rb_script_text::proofs::Added::more_append), unfolding(crate::specs::ReportJson::client_members))]
fn push_client_members(
    text: &mut String,
    version: Version,
    paths: &[PathId],
    client: &ClientReport,
) -> Result<(), AllocError>
    ensures { OnOk result (string_bytes text.new ≡ string_bytes text.old ++ more_text (client_members version paths.now (client_report_view client.now))) }
{
    push_outcome(text, version, paths, &client.outcome)?;
    push_left(
        text,
        version,
        paths,
        &client.outcome,
        client.too_big.as_slice(),
    )
}

/// Adds the messages that are left out since they are over the gas limit alone, from version 4 on; none of a client
/// that is held.
fn push_left(
    text: &mut String,
    version: Version,
    paths: &[PathId],
    outcome: &Outcome,
    left: &[Message],
) -> Result<(), AllocError>
    ensures { OnOk result (string_bytes text.new
        ≡ string_bytes text.old ++ more_text (left_members version paths.now (outcome_view outcome.now) left.now)) }
{
    match (version, outcome) {
        (Version::Four, Outcome::Idle(_) | Outcome::Planned(_)) => {
            push_name(text, true, "left_out")?;
            push_messages(text, paths, left)
        }
        _ => Ok(()),
    }
}

fn push_outcome(
    text: &mut String,
    version: Version,
    paths: &[PathId],
    outcome: &Outcome,
) -> Result<(), AllocError>
    ensures { OnOk result (string_bytes text.new ≡ string_bytes text.old ++ more_text (outcome_members version paths.now (outcome_view outcome.now))) }
{
    match outcome {
        Outcome::Held(batch) => {
            push_text(text, true, "outcome", "held")?;
            push_number(text, true, "batch", *batch)
        }
        Outcome::Idle(next) => {
            push_text(text, true, "outcome", "idle")?;
            push_next(text, version, *next)
        }
        Outcome::Planned(planned) => push_planned(text, version, paths, planned),
    }
}

fn push_planned(
    text: &mut String,
    version: Version,
    paths: &[PathId],
    planned: &PlannedReport,
) -> Result<(), AllocError>
    ensures { OnOk result (string_bytes text.new
        ≡ string_bytes text.old ++ more_text (outcome_members version paths.now (outcome_planned (planned_view planned.now)))) }
{
    push_text(text, true, "outcome", planned_word(&planned.plan))?;
    push_name(text, true, "goal")?;
    push_goal(text, planned.goal)?;
    push_labelled(text, version, paths, planned)
}

/// Adds what stands behind the goal: what was asked for and is out of reach, the labels, and the plan, if there is one.
#[tactic(auto, using(rb_script_text::proofs::Added::more_append), unfolding(crate::specs::ReportJson::labelled_members))]
fn push_labelled(
    text: &mut String,
    version: Version,
    paths: &[PathId],
    planned: &PlannedReport,
) -> Result<(), AllocError>
    ensures { OnOk result (string_bytes text.new ≡ string_bytes text.old ++ more_text (labelled_members version paths.now (planned_view planned.now))) }
{
    push_beyond(text, planned.beyond)?;
    push_name(text, true, "labels")?;
    push_labels(text, planned.labelling.labels())?;
    push_reached(text, version, paths, planned.next, &planned.plan)
}

/// Adds what was asked for and is out of reach.
fn push_beyond(text: &mut String, beyond: Option<Goal>) -> Result<(), AllocError>
    ensures { OnOk result (string_bytes text.new ≡ string_bytes text.old ++ more_text (beyond_members beyond)) }
{
    match beyond {
        Some(goal) => {
            push_name(text, true, "beyond")?;
            push_goal(text, goal)
        }
        None => Ok(()),
    }
}

/// The word that a report has for a client with a goal.
fn planned_word(plan: &Option<PlanReport>) -> &'static str
    ensures { result.now ≡ planned_word (option_map plan_view plan.now) }
{
    match plan {
        Some(_) => "plan",
        None => "unreachable",
    }
}

fn push_labels(text: &mut String, labels: &[Label]) -> Result<(), AllocError>
    ensures { OnOk result (string_bytes text.new ≡ string_bytes text.old ++ json_text (array (map label_json labels.now))) }
{
    text.push_str("[")?;
    for (place, label) in labels.iter().enumerate() {
        push_comma(text, place > 0)?;
        push_label(text, label)?;
    }
    text.push_str("]")
}

fn push_label(text: &mut String, label: &Label) -> Result<(), AllocError>
    ensures { OnOk result (string_bytes text.new ≡ string_bytes text.old ++ json_text (label_json label.now)) }
{
    text.push_str("{")?;
    push_number(text, false, "height", label.height.get())?;
    push_number(text, true, "fee", label.cost.fee)?;
    push_number(text, true, "count", label.cost.count)?;
    text.push_str("}")
}

/// Adds what stands behind the labels: when a client has a goal next, and the plan, if there is one.
fn push_reached(
    text: &mut String,
    version: Version,
    paths: &[PathId],
    next: Option<Moment>,
    plan: &Option<PlanReport>,
) -> Result<(), AllocError>
    ensures { OnOk result (string_bytes text.new
        ≡ string_bytes text.old ++ more_text (reached_members version paths.now next (option_map plan_view plan.now))) }
{
    match plan {
        Some(plan) => {
            push_next(text, version, next)?;
            push_plan(text, paths, plan)
        }
        None => Ok(()),
    }
}

fn push_plan(text: &mut String, paths: &[PathId], plan: &PlanReport) -> Result<(), AllocError>
    ensures { OnOk result (string_bytes text.new ≡ string_bytes text.old ++ more_text (plan_members paths.now (plan_view plan.now))) }
{
    push_name(text, true, "updates")?;
    push_updates(text, plan.updates.as_slice())?;
    push_name(text, true, "total")?;
    push_total(text, plan.total)?;
    push_name(text, true, "messages")?;
    push_messages(text, paths, plan.messages.as_slice())?;
    push_sending(text, &plan.sending)
}

fn push_updates(text: &mut String, updates: &[PricedUpdate]) -> Result<(), AllocError>
    ensures { OnOk result (string_bytes text.new ≡ string_bytes text.old ++ json_text (array (map update_json (map priced_view updates.now)))) }
{
    text.push_str("[")?;
    for (place, update) in updates.iter().enumerate() {
        push_comma(text, place > 0)?;
        push_update(text, update)?;
    }
    text.push_str("]")
}

fn push_update(text: &mut String, priced: &PricedUpdate) -> Result<(), AllocError>
    ensures { OnOk result (string_bytes text.new ≡ string_bytes text.old ++ json_text (update_json (priced_view priced.now))) }
{
    text.push_str("{")?;
    push_number(text, false, "height", priced.update.height().get())?;
    push_number(text, true, "trusted", priced.update.trusted().get())?;
    push_number(text, true, "fee", priced.fee)?;
    push_votes(text, &priced.votes)?;
    text.push_str("}")
}

/// Adds the votes that an update carries, where it carries only those that it needs.
fn push_votes(text: &mut String, votes: &Option<SentVotes>) -> Result<(), AllocError>
    ensures { OnOk result (string_bytes text.new ≡ string_bytes text.old ++ more_text (votes_members (option_map sent_view votes.now))) }
{
    let Some(votes) = votes else {
        return Ok(());
    };
    push_number(text, true, "commits", votes.commits as u64)?;
    push_name(text, true, "votes")?;
    push_addresses(text, votes.senders.as_slice())
}

fn push_addresses(text: &mut String, addresses: &[[u8; 20]]) -> Result<(), AllocError>
    ensures { OnOk result (string_bytes text.new ≡ string_bytes text.old ++ json_text (array (map address_json addresses.now))) }
{
    text.push_str("[")?;
    for (place, address) in addresses.iter().enumerate() {
        push_comma(text, place > 0)?;
        push_address(text, address)?;
    }
    text.push_str("]")
}

/// Adds an address as nodes write it, in capital hexadecimal digits.
fn push_address(text: &mut String, address: &[u8; 20]) -> Result<(), AllocError>
    ensures { OnOk result (string_bytes text.new ≡ string_bytes text.old ++ json_text (address_json address.now)) }
{
    text.push_str("\"")?;
    push_digits(text, address)?;
    text.push_str("\"")
}

fn push_digits(text: &mut String, bytes: &[u8]) -> Result<(), AllocError>
    ensures { OnOk result (string_bytes text.new ≡ string_bytes text.old ++ flat_map byte_digits bytes.now) }
{
    for byte in bytes {
        push_byte(text, *byte)?;
    }
    Ok(())
}

#[tactic(auto, using(std::proofs::lemmas::Fmt::hex_byte))]
fn push_byte(text: &mut String, byte: u8) -> Result<(), AllocError>
    ensures { OnOk result (string_bytes text.new ≡ string_bytes text.old ++ byte_digits byte) }
{
    write!(text, "{byte:02X}")
}

fn push_total(text: &mut String, total: Cost) -> Result<(), AllocError>
    ensures { OnOk result (string_bytes text.new ≡ string_bytes text.old ++ json_text (total_json total)) }
{
    text.push_str("{")?;
    push_number(text, false, "fee", total.fee)?;
    push_number(text, true, "updates", total.count)?;
    text.push_str("}")
}

fn push_messages(
    text: &mut String,
    paths: &[PathId],
    messages: &[Message],
) -> Result<(), AllocError>
    ensures { OnOk result (string_bytes text.new ≡ string_bytes text.old ++ json_text (array (map (message_json paths.now) messages.now))) }
{
    text.push_str("[")?;
    for (place, message) in messages.iter().enumerate() {
        push_comma(text, place > 0)?;
        push_message(text, paths, message)?;
    }
    text.push_str("]")
}

fn push_message(text: &mut String, paths: &[PathId], message: &Message) -> Result<(), AllocError>
    ensures { OnOk result (string_bytes text.new ≡ string_bytes text.old ++ json_text (message_json paths.now message.now)) }
{
    let packet = message.packet();
    text.push_str("{")?;
    push_text(text, false, "kind", kind_name(packet.kind))?;
    push_text(text, true, "path", id_of(paths, message.path()))?;
    push_number(text, true, "sequence", packet.sequence.get())?;
    text.push_str("}")
}

/// The identifier of the path at a place.
fn id_of(paths: &[PathId], path: usize) -> &str
    ensures { result.now ≡ slice_index_or paths.now path [] }
{
    match paths.get(path) {
        Some(id) => id.as_str(),
        None => "",
    }
}

fn push_sending(text: &mut String, sending: &SendingReport) -> Result<(), AllocError>
    ensures { OnOk result (string_bytes text.new ≡ string_bytes text.old ++ more_text (sending_members (sending_view sending.now))) }
{
    match sending {
        SendingReport::Nothing => Ok(()),
        SendingReport::TooBig(index) => push_number(text, true, "too_big", *index as u64),
        SendingReport::Batch(batch) => push_batch(text, batch),
    }
}

fn push_batch(text: &mut String, batch: &BatchReport) -> Result<(), AllocError>
    ensures { OnOk result (string_bytes text.new ≡ string_bytes text.old ++ more_text (sending_members (batched (batch_view batch.now)))) }
{
    push_number(text, true, "batch", batch.number)?;
    push_number(text, true, "proof", batch.proof.get())?;
    push_name(text, true, "transactions")?;
    push_transactions(text, batch.transactions.as_slice())
}

fn push_transactions(text: &mut String, transactions: &[Transaction]) -> Result<(), AllocError>
    ensures { OnOk result (string_bytes text.new ≡ string_bytes text.old ++ json_text (array (map transaction_json transactions.now))) }
{
    text.push_str("[")?;
    for (place, transaction) in transactions.iter().enumerate() {
        push_comma(text, place > 0)?;
        push_transaction(text, transaction)?;
    }
    text.push_str("]")
}

fn push_transaction(text: &mut String, transaction: &Transaction) -> Result<(), AllocError>
    ensures { OnOk result (string_bytes text.new ≡ string_bytes text.old ++ json_text (transaction_json transaction.now)) }
{
    let Transaction { first, count, gas } = *transaction;
    text.push_str("{")?;
    push_number(text, false, "first", first as u64)?;
    push_number(text, true, "count", count as u64)?;
    push_number(text, true, "gas", gas)?;
    text.push_str("}")
}

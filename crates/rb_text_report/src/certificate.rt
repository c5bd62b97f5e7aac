//! The certificate of a text.
ghost use Rattle.std.specs.Prelude.{◌<◌, ◌^◌, [], IfOk, OnOk, All, codes, map};
ghost use Rattle.std.specs.List.Sorted.{IsStrictlyIncreasing};
ghost use Rattle.toml.specs.View.{view, items_view};
ghost use Rattle.rb_script_toml.specs.Faults.{Gives};
ghost use Rattle.rb_script_toml.specs.KeyPaths.{element};
ghost use Rattle.rb_script_toml.specs.Fields.{field_view, section_view, field_at, only, needs, optional, or_default, identifier, two_integers, three_integers};
ghost use Rattle.rb_text_report.specs.Certificates.{answer, update, updates, label, labels, each, typed_from, rising, certificate_keys, certificate, certificate_of, certificate_view};

use rb_base::{ClientId, Height};
use rb_plan_types::{Answer, Cost, Label, Labelling, Update};
use rb_script_toml::{
    FaultName, Field, KeyPath, MAX_NUMBER, RunError, Section, element_path, read_table,
};
use std::alloc::Global;
use toml::Value;

/// A planner's answer for one client in one turn, whoever made it.
#[derive(Drop)]
pub struct Certificate {
    /// The number of the turn, from 1.
    pub turn: u64,
    pub client: ClientId,
    pub answer: Answer,
}

/// Whether there is a list of updates.
#[derive(Clone, Copy)]
pub enum AnswerKind {
    Plan,
    Unreachable,
}

#[tactic(auto, using(rb_script_toml::proofs::Steps::steps), unfolding(crate::specs::Certificates::answer))]
fn read_answer(field: &Field<'_>) -> Result<AnswerKind, RunError>
    ensures { Gives (λ k. k) result (answer (field_view field.now)) }
{
    match field.text()? {
        "plan" => Ok(AnswerKind::Plan),
        "unreachable" => Ok(AnswerKind::Unreachable),
        _ => Err(field.fault(FaultName::BadAnswer)),
    }
}

#[tactic(auto, using(rb_script_toml::proofs::Steps::steps))]
fn needed_answer(section: &Section<'_>) -> Result<AnswerKind, RunError>
    ensures { Gives (λ k. k) result (needs (codes "answer") answer (section_view section.now)) }
{
    read_answer(&section.required("answer")?)
}

#[tactic(auto, using(rb_script_toml::proofs::Steps::steps))]
fn pair_at(alloc: Global, index: usize, value: &Value) -> Result<(i64, i64), RunError>
    ensures { Gives (λ n. n) result (two_integers (field_at (element (codes "updates") index) (view value.now))) }
{
    let path = element_path(alloc, "updates", index)?;
    let place = KeyPath {
        table: "",
        key: path.as_str(),
    };
    Field {
        alloc,
        place,
        value,
    }
    .two_integers()
}

/// Refuses the first element that isn't two integers.
fn judge_pairs(alloc: Global, items: &[Value]) -> Result<(), RunError>
    ensures { Gives (λ u. u) result (typed_from two_integers (codes "updates") 0 (items_view items.now)) }
{
    for (index, value) in items.iter().enumerate() {
        let _pair = pair_at(alloc, index, value)?;
    }
    Ok(())
}

#[tactic(auto, using(rb_script_toml::proofs::Steps::steps), unfolding(crate::specs::Certificates::update))]
fn read_update(field: &Field<'_>) -> Result<Update, RunError>
    ensures { Gives (λ u. u) result (update (field_view field.now)) }
{
    let (height, trusted) = field.two_integers()?;
    let height = field.within(0, height, 1, Height::MAX, FaultName::OutOfRange)?;
    let trusted = field.within(1, trusted, 1, Height::MAX, FaultName::OutOfRange)?;
    Ok(Update::new(Height::new(height).unwrap(), Height::new(trusted).unwrap()))
}

#[tactic(auto, using(rb_script_toml::proofs::Steps::steps))]
fn read_update_at(alloc: Global, index: usize, value: &Value) -> Result<Update, RunError>
    ensures { Gives (λ u. u) result (update (field_at (element (codes "updates") index) (view value.now))) }
{
    let path = element_path(alloc, "updates", index)?;
    let place = KeyPath {
        table: "",
        key: path.as_str(),
    };
    read_update(&Field {
        alloc,
        place,
        value,
    })
}

/// Reads the updates, whose types were judged, each by itself.
fn read_updates(alloc: Global, items: &[Value]) -> Result<Vec<Update>, RunError>
    ensures { Gives (λ v. v.items) result (each update (codes "updates") [] (items_view items.now)) }
{
    let mut updates = Vec::with_capacity(alloc, items.len())?;
    for value in items {
        let update = read_update_at(alloc, updates.len(), value)?;
        updates.push(update)?;
    }
    Ok(updates)
}

#[tactic(auto, using(rb_script_toml::proofs::Steps::steps), unfolding(crate::specs::Certificates::updates))]
fn updates(field: &Field<'_>) -> Result<Vec<Update>, RunError>
    ensures { Gives (λ v. v.items) result (updates (field_view field.now)) }
{
    let items = field.items()?;
    judge_pairs(field.alloc, items)?;
    read_updates(field.alloc, items)
}

#[tactic(auto, using(rb_script_toml::proofs::Steps::steps))]
fn updates_or_none(section: &Section<'_>) -> Result<Vec<Update>, RunError>
    ensures { Gives (λ v. v.items) result (or_default [] updates (optional (codes "updates") (section_view section.now))) }
{
    match section.optional("updates") {
        Some(field) => updates(&field),
        None => Ok(Vec::new(section.alloc)),
    }
}

#[tactic(auto, using(rb_script_toml::proofs::Steps::steps))]
fn triple_at(alloc: Global, index: usize, value: &Value) -> Result<(i64, i64, i64), RunError>
    ensures { Gives (λ n. n) result (three_integers (field_at (element (codes "labels") index) (view value.now))) }
{
    let path = element_path(alloc, "labels", index)?;
    let place = KeyPath {
        table: "",
        key: path.as_str(),
    };
    Field {
        alloc,
        place,
        value,
    }
    .three_integers()
}

/// Refuses the first element that isn't three integers.
fn judge_triples(alloc: Global, items: &[Value]) -> Result<(), RunError>
    ensures { Gives (λ u. u) result (typed_from three_integers (codes "labels") 0 (items_view items.now)) }
{
    for (index, value) in items.iter().enumerate() {
        let _triple = triple_at(alloc, index, value)?;
    }
    Ok(())
}

#[tactic(auto, using(rb_script_toml::proofs::Steps::steps), unfolding(crate::specs::Certificates::label))]
fn read_label(field: &Field<'_>) -> Result<Label, RunError>
    ensures read { Gives (λ l. l) result (label (field_view field.now)) }
    ensures small { IfOk result (λ l. (l.cost.fee < 2 ^ 63) × (l.cost.count < 2 ^ 63)) }
{
    let (height, fee, count) = field.three_integers()?;
    let height = field.within(0, height, 1, Height::MAX, FaultName::OutOfRange)?;
    let fee = field.within(1, fee, 0, MAX_NUMBER, FaultName::OutOfRange)?;
    let count = field.within(2, count, 0, MAX_NUMBER, FaultName::OutOfRange)?;
    Ok(Label {
        height: Height::new(height).unwrap(),
        cost: Cost { fee, count },
    })
}

#[tactic(auto, using(rb_script_toml::proofs::Steps::steps))]
fn read_label_at(alloc: Global, index: usize, value: &Value) -> Result<Label, RunError>
    ensures read { Gives (λ l. l) result (label (field_at (element (codes "labels") index) (view value.now))) }
    ensures small { IfOk result (λ l. (l.cost.fee < 2 ^ 63) × (l.cost.count < 2 ^ 63)) }
{
    let path = element_path(alloc, "labels", index)?;
    let place = KeyPath {
        table: "",
        key: path.as_str(),
    };
    read_label(&Field {
        alloc,
        place,
        value,
    })
}

/// Reads the labels, whose types were judged, each by itself.
fn read_labels(alloc: Global, items: &[Value]) -> Result<Vec<Label>, RunError>
    ensures read { Gives (λ v. v.items) result (each label (codes "labels") [] (items_view items.now)) }
    ensures small { IfOk result (λ v. All (λ l. (l.cost.fee < 2 ^ 63) × (l.cost.count < 2 ^ 63)) v.items) }
{
    let mut labels = Vec::with_capacity(alloc, items.len())?;
    for value in items {
        let label = read_label_at(alloc, labels.len(), value)?;
        labels.push(label)?;
    }
    Ok(labels)
}

/// Refuses the first label whose height isn't above that of the label before it.
fn judge_order(alloc: Global, labels: &[Label]) -> Result<(), RunError>
    ensures read { Gives (λ u. u) result (rising labels.now) }
    ensures rising { OnOk result (IsStrictlyIncreasing (map (λ l. l.height) labels.now)) }
{
    let mut below = 0;
    for (index, label) in labels.iter().enumerate() {
        let height = label.height.get();
        if height <= below {
            let place = KeyPath {
                table: "",
                key: "labels",
            };
            return Err(place.fault_at(alloc, &[index], FaultName::LabelOrder));
        }
        below = height;
    }
    Ok(())
}

#[tactic(auto, using(rb_script_toml::proofs::Steps::steps), unfolding(crate::specs::Certificates::labels))]
fn labels(field: &Field<'_>) -> Result<Labelling, RunError>
    ensures { Gives (λ l. l) result (labels (field_view field.now)) }
{
    let items = field.items()?;
    judge_triples(field.alloc, items)?;
    let labels = read_labels(field.alloc, items)?;
    judge_order(field.alloc, labels.as_slice())?;
    Ok(Labelling::new(labels)?)
}

#[tactic(auto, using(rb_script_toml::proofs::Steps::steps))]
fn needed_labels(section: &Section<'_>) -> Result<Labelling, RunError>
    ensures { Gives (λ l. l) result (needs (codes "labels") labels (section_view section.now)) }
{
    labels(&section.required("labels")?)
}

fn only_certificate_keys(section: &Section<'_>) -> Result<(), RunError>
    ensures { Gives (λ u. u) result (only certificate_keys (section_view section.now)) }
{
    section.only(&["version", "turn", "client", "answer", "updates", "labels"])
}

#[tactic(auto, using(rb_script_toml::proofs::Steps::steps))]
fn needed_client(section: &Section<'_>) -> Result<ClientId, RunError>
    ensures { Gives (λ c. c) result (needs (codes "client") identifier (section_view section.now)) }
{
    let id = section.required("client")?.identifier()?;
    Ok(ClientId::new(id).unwrap())
}

#[tactic(auto, using(rb_script_toml::proofs::Steps::steps), unfolding(crate::specs::Certificates::certificate))]
fn read_document(section: &Section<'_>) -> Result<Certificate, RunError>
    ensures { Gives certificate_view result (certificate (section_view section.now)) }
{
    only_certificate_keys(section)?;
    let _version = section.number("version", 1, 1, FaultName::BadVersion)?;
    let turn = section.number("turn", 1, MAX_NUMBER, FaultName::OutOfRange)?;
    let client = needed_client(section)?;
    let kind = needed_answer(section)?;
    let updates = updates_or_none(section)?;
    let labelling = needed_labels(section)?;
    let answer = match kind {
        AnswerKind::Plan => Answer::Plan { updates, labelling },
        AnswerKind::Unreachable => {
            if !updates.is_empty() {
                let place = section.place("answer");
                return Err(place.fault(section.alloc, FaultName::BadAnswer));
            }
            Answer::Unreachable { labelling }
        }
    };
    Ok(Certificate {
        turn,
        client,
        answer,
    })
}

/// Reads a certificate, or answers the first fault of its text. Whether the script has its turn and
/// its client is not judged here.
#[tactic(auto, using(rb_script_toml::proofs::Steps::steps), unfolding(crate::specs::Certificates::certificate_of))]
pub fn read_certificate(alloc: Global, bytes: &[u8]) -> Result<Certificate, RunError>
    ensures { Gives certificate_view result (certificate_of bytes.now) }
{
    let table = read_table(alloc, bytes)?;
    read_document(&Section {
        alloc,
        path: "",
        table: &table,
    })
}

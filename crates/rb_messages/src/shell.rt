//! The shell file that sends messages, or transactions. Identifiers have no single quote.
ghost use Rattle.std.specs.Prelude.{◌≡◌, ◌++◌, ◌+◌, ◌≤◌, IfOk, OnOk, length, string_bytes};
ghost use Rattle.std.specs.List.{flat_map};
ghost use Rattle.rb_core.specs.Core.{state_in};
ghost use Rattle.rb_messages.specs.Shell.{arguments_text, batch_text, batches_text, begin_text, body_text, call_text, client_text, host_text, options_text, program_text, send_text, transaction_text, transactions_text, until_text, update_text, updates_text, valid_text, window_in, window_text, words_text};

use crate::batch::PlannedBatch;
use crate::source::id_of;
use crate::transactions::{TransactionFile, sender_to};
use crate::update::{PlannedUpdate, file_name};
use rb_base::{ChainId, Moment, Window};
use rb_core::Core;
use rb_core_model::CoreError;
use rb_import_setup::Sender;
use rb_script_text::push_moment;
use rb_want_requests::own_id;
use std::alloc::{AllocError, Global};

/// How the shell file begins.
const HEAD: &str = "#!/bin/sh
# PROGRAM_N is the program of the host number N, OPTIONS_N are the options of its transactions, as
#   PROGRAM_1=simd OPTIONS_1='--from relayer --node tcp://localhost:26657 --gas auto --yes' sh send.sh
# WAIT is how many seconds a transaction is waited for: each update stands on the one before.
set -eu
cd \"$(dirname \"$0\")\"
";

/// How the shell file begins that sends transactions. What a program answers is data of `sed` and `grep`, and its hash a
/// word only where it is one.
const TRANSACTIONS_HEAD: &str = r#"#!/bin/sh
# PROGRAM_N is the program of the host number N, OPTIONS_N are the options of its `tx sign`, NODE_N those of all that it is called with, as
#   PROGRAM_1=simd OPTIONS_1='--from relayer --keyring-backend test' NODE_1='--node tcp://localhost:26657' sh send.sh
# Each transaction is signed, broadcast, and looked for until a block has it: at most TRIES times (30), WAIT seconds (2) apart.
# Behind a transaction that fails those of its client are not sent.
set -eu
cd "$(dirname "$0")"
is_done() { printf '%s\n' "$1" | grep -q '"code": *0[,}]'; }
hash_in() { printf '%s\n' "$1" | sed -n 's/.*"txhash": *"\([0-9A-Fa-f]\{64\}\)".*/\1/p' | head -n 1; }
fail() { echo "$1: $2" >&2; return 1; }
send() {
  "$program" tx sign "$1" --chain-id "$chain" $options $node > "$1.signed" || fail "$1" "it isn't signed" || return 1
  answer=$("$program" tx broadcast "$1.signed" --broadcast-mode sync --output json $node) || fail "$1" "it isn't broadcast" || return 1
  hash=$(hash_in "$answer")
  [ ${#hash} -eq 64 ] && is_done "$answer" || fail "$1" "the node doesn't take it" || return 1
  tries=0
  while [ "$tries" -lt "${TRIES:-30}" ]; do
    tries=$((tries + 1))
    sleep "${WAIT:-2}"
    if answer=$("$program" query tx "$hash" --output json $node 2> /dev/null); then
      is_done "$answer" || fail "$1" "the transaction $hash failed" || return 1
      echo "$1 $hash"
      return 0
    fi
  done
  fail "$1" "no block has the transaction $hash"
}
failed=0
"#;

/// The shell file that sends updates in their order, which the relayer that has planned them says until when they are valid.
pub fn shell_of(
    alloc: Global,
    relayer: &Core,
    updates: &[PlannedUpdate],
) -> Result<String, AllocError>
    ensures { IfOk result (λ text. string_bytes text ≡ HEAD.now ++ window_text (window_in (state_in relayer.now)) ++ updates_text relayer.now.config.chains 0 updates.now) }
{
    let mut text = begun(alloc, relayer, HEAD)?;
    let chains = relayer.config().chains.as_slice();
    push_updates(alloc, &mut text, chains, 0, updates)?;
    Ok(text)
}

/// The shell file that sends the transactions of batches, of each host to which somebody sends, and the updates of the
/// other batches.
pub fn transactions_shell_of(
    alloc: Global,
    relayer: &Core,
    senders: &[Option<Sender>],
    batches: &[PlannedBatch],
    updates: &[PlannedUpdate],
    files: &[TransactionFile],
) -> Result<String, AllocError>
    ensures { IfOk result (λ text. string_bytes text
        ≡ TRANSACTIONS_HEAD.now ++ window_text (window_in (state_in relayer.now)) ++ body_text relayer.now.config.chains senders.now files.now updates.now batches.now) }
{
    let mut text = begun(alloc, relayer, TRANSACTIONS_HEAD)?;
    let chains = relayer.config().chains.as_slice();
    push_body(alloc, &mut text, chains, senders, batches, updates, files)?;
    Ok(text)
}

/// A text with this head, and behind it when the updates are valid.
fn begun(alloc: Global, relayer: &Core, head: &str) -> Result<String, AllocError>
    ensures { IfOk result (λ text. string_bytes text ≡ head.now ++ window_text (window_in (state_in relayer.now))) }
{
    let mut text = String::new(alloc);
    text.push_str(head)?;
    push_window(&mut text, window_of(relayer)?)?;
    Ok(text)
}

/// Adds the commands of batches, and the end.
#[tactic(auto, using(crate::proofs::Added::added), unfolding(crate::specs::Shell::body_text))]
fn push_body(
    alloc: Global,
    text: &mut String,
    chains: &[ChainId],
    senders: &[Option<Sender>],
    batches: &[PlannedBatch],
    updates: &[PlannedUpdate],
    files: &[TransactionFile],
) -> Result<(), AllocError>
    ensures { OnOk result (string_bytes text.new ≡ string_bytes text.old ++ body_text chains.now senders.now files.now updates.now batches.now) }
{
    push_batches(alloc, text, chains, senders, batches, updates, files)?;
    text.push_str("exit \"$failed\"\n")
}

/// Adds the commands of batches, each of which begins with as many of the updates as it has.
fn push_batches(
    alloc: Global,
    text: &mut String,
    chains: &[ChainId],
    senders: &[Option<Sender>],
    batches: &[PlannedBatch],
    updates: &[PlannedUpdate],
    files: &[TransactionFile],
) -> Result<(), AllocError>
    ensures { OnOk result (string_bytes text.new ≡ string_bytes text.old ++ batches_text chains.now senders.now files.now updates.now 0 batches.now updates.now) }
{
    let mut rest = updates;
    for (place, batch) in batches.iter().enumerate() {
        let first = updates.len() - rest.len();
        let (own, behind) = rest.split_at(batch.updates.min(rest.len()));
        rest = behind;
        push_batch(
            alloc, text, chains, senders, place, batch, files, first, own,
        )?;
    }
    Ok(())
}

/// Adds the commands of the batch at a place: its transactions, or where nobody sends to its host, its updates, which have so
/// many before them.
fn push_batch(
    alloc: Global,
    text: &mut String,
    chains: &[ChainId],
    senders: &[Option<Sender>],
    place: usize,
    batch: &PlannedBatch,
    files: &[TransactionFile],
    first: usize,
    updates: &[PlannedUpdate],
) -> Result<(), AllocError>
    requires { first + length updates.now ≤ usize.MAX }
    ensures { OnOk result (string_bytes text.new ≡ string_bytes text.old ++ batch_text chains.now senders.now files.now place batch.now first updates.now) }
{
    match sender_to(senders, batch.host) {
        Some(_) => push_transactions(text, chains, batch, place, files),
        None => push_updates(alloc, text, chains, first, updates),
    }
}

/// Adds the commands of the transactions of the batch at a place, each only where those before it are taken.
#[tactic(auto, using(crate::proofs::Added::added), unfolding(crate::specs::Shell::transactions_text))]
fn push_transactions(
    text: &mut String,
    chains: &[ChainId],
    batch: &PlannedBatch,
    place: usize,
    files: &[TransactionFile],
) -> Result<(), AllocError>
    ensures { OnOk result (string_bytes text.new ≡ string_bytes text.old ++ transactions_text chains.now files.now place batch.now) }
{
    push_begin(
        text,
        batch.host,
        id_of(chains, batch.host),
        batch.client.as_str(),
    )?;
    push_files(text, place, files)?;
    text.push_str("true || failed=1\n")
}

/// Adds a comment, and the words that `send` goes by.
#[tactic(auto, using(crate::proofs::Added::added), unfolding(crate::specs::Shell::begin_text))]
fn push_begin(text: &mut String, place: usize, host: &str, client: &str) -> Result<(), AllocError>
    ensures { OnOk result (string_bytes text.new ≡ string_bytes text.old ++ begin_text place host.now client.now) }
{
    let number = place as u128 + 1;
    push_host(text, number, host)?;
    push_client(text, own_id(host, client))?;
    push_words(text, number, host)
}

/// Adds the beginning of a comment: the number of a host, from 1, and its identifier.
#[tactic(auto, unfolding(crate::specs::Shell::host_text))]
fn push_host(text: &mut String, number: u128, host: &str) -> Result<(), AllocError>
    ensures { OnOk result (string_bytes text.new ≡ string_bytes text.old ++ host_text number host.now) }
{
    write!(text, "# host {number}, {host}: ")
}

#[tactic(auto, unfolding(crate::specs::Shell::client_text))]
fn push_client(text: &mut String, client: &str) -> Result<(), AllocError>
    ensures { OnOk result (string_bytes text.new ≡ string_bytes text.old ++ client_text client.now) }
{
    writeln!(text, "client {client}")
}

#[tactic(auto, using(crate::proofs::Added::added), unfolding(crate::specs::Shell::words_text))]
fn push_words(text: &mut String, number: u128, host: &str) -> Result<(), AllocError>
    ensures { OnOk result (string_bytes text.new ≡ string_bytes text.old ++ words_text number host.now) }
{
    push_program(text, number, host)?;
    push_options(text, number)
}

#[tactic(auto, unfolding(crate::specs::Shell::program_text))]
fn push_program(text: &mut String, number: u128, host: &str) -> Result<(), AllocError>
    ensures { OnOk result (string_bytes text.new ≡ string_bytes text.old ++ program_text number host.now) }
{
    write!(
        text,
        "program=${{PROGRAM_{number}:?the program of {host}}} chain='{host}'"
    )
}

#[tactic(auto, unfolding(crate::specs::Shell::options_text))]
fn push_options(text: &mut String, number: u128) -> Result<(), AllocError>
    ensures { OnOk result (string_bytes text.new ≡ string_bytes text.old ++ options_text number) }
{
    writeln!(
        text,
        " options=${{OPTIONS_{number}-}} node=${{NODE_{number}-}}"
    )
}

/// Adds the commands of the files of the batch at a place.
fn push_files(text: &mut String, place: usize, files: &[TransactionFile]) -> Result<(), AllocError>
    ensures { OnOk result (string_bytes text.new ≡ string_bytes text.old ++ flat_map (send_text place) files.now) }
{
    for file in files {
        push_file(text, place, file)?;
    }
    Ok(())
}

#[tactic(auto, unfolding(crate::specs::Shell::send_text))]
fn push_file(text: &mut String, place: usize, file: &TransactionFile) -> Result<(), AllocError>
    ensures { OnOk result (string_bytes text.new ≡ string_bytes text.old ++ send_text place file.now) }
{
    if file.batch == place {
        let name = file.name.as_str();
        write!(text, "send '{name}' && ")
    } else {
        Ok(())
    }
}

/// Adds the commands of updates, the first of which has so many before it.
fn push_updates(
    alloc: Global,
    text: &mut String,
    chains: &[ChainId],
    first: usize,
    updates: &[PlannedUpdate],
) -> Result<(), AllocError>
    requires { first + length updates.now ≤ usize.MAX }
    ensures { OnOk result (string_bytes text.new ≡ string_bytes text.old ++ updates_text chains.now first updates.now) }
{
    for (place, update) in updates.iter().enumerate() {
        push_update(alloc, text, chains, first + place, update)?;
    }
    Ok(())
}

/// Adds the command of the update at a place.
fn push_update(
    alloc: Global,
    text: &mut String,
    chains: &[ChainId],
    place: usize,
    update: &PlannedUpdate,
) -> Result<(), AllocError>
    ensures { OnOk result (string_bytes text.new ≡ string_bytes text.old ++ update_text chains.now (place, update.now)) }
{
    let file = file_name(alloc, place, update)?;
    push_call(text, id_of(chains, update.host), update, file.as_str())
}

/// Adds a comment, and the call of a host's program on the file of an update.
#[tactic(auto, using(crate::proofs::Added::added), unfolding(crate::specs::Shell::call_text))]
fn push_call(
    text: &mut String,
    host: &str,
    update: &PlannedUpdate,
    file: &str,
) -> Result<(), AllocError>
    ensures { OnOk result (string_bytes text.new ≡ string_bytes text.old ++ call_text host.now update.now file.now) }
{
    let number = update.host as u128 + 1;
    push_host(text, number, host)?;
    push_transaction(text, number, update.transaction, host)?;
    push_arguments(text, number, own_id(host, update.client.as_str()), file)
}

#[tactic(auto, unfolding(crate::specs::Shell::transaction_text))]
fn push_transaction(
    text: &mut String,
    number: u128,
    transaction: usize,
    host: &str,
) -> Result<(), AllocError>
    ensures { OnOk result (string_bytes text.new ≡ string_bytes text.old ++ transaction_text number transaction host.now) }
{
    write!(
        text,
        "transaction {transaction}\n\"${{PROGRAM_{number}:?the program of {host}}}\""
    )
}

#[tactic(auto, unfolding(crate::specs::Shell::arguments_text))]
fn push_arguments(
    text: &mut String,
    number: u128,
    client: &str,
    file: &str,
) -> Result<(), AllocError>
    ensures { OnOk result (string_bytes text.new ≡ string_bytes text.old ++ arguments_text number client.now file.now) }
{
    writeln!(
        text,
        " tx ibc client update '{client}' {file} ${{OPTIONS_{number}-}}\nsleep \"${{WAIT:-10}}\""
    )
}

/// The window in force of the first client; None before the first, and without clients.
#[tactic(auto, using(crate::proofs::Shown::refused_window, crate::proofs::Shown::shown_window))]
fn window_of(relayer: &Core) -> Result<Option<Window>, AllocError>
    ensures { IfOk result (λ window. window ≡ window_in (state_in relayer.now)) }
{
    match relayer.client_view(0) {
        Ok(job) => Ok(Some(job.window())),
        Err(CoreError::Refused(_)) => Ok(None),
        Err(CoreError::NoMemory) => Err(AllocError),
    }
}

/// Adds when the updates are valid.
fn push_window(text: &mut String, window: Option<Window>) -> Result<(), AllocError>
    ensures { OnOk result (string_bytes text.new ≡ string_bytes text.old ++ window_text window) }
{
    match window {
        Some(window) => push_valid(text, window),
        None => Ok(()),
    }
}

#[tactic(auto, using(crate::proofs::Added::added), unfolding(crate::specs::Shell::valid_text))]
fn push_valid(text: &mut String, window: Window) -> Result<(), AllocError>
    ensures { OnOk result (string_bytes text.new ≡ string_bytes text.old ++ valid_text window) }
{
    text.push_str("# valid from ")?;
    push_moment(text, window.from())?;
    push_until(text, window.until())
}

#[tactic(auto, unfolding(crate::specs::Shell::until_text))]
fn push_until(text: &mut String, until: Moment) -> Result<(), AllocError>
    ensures { OnOk result (string_bytes text.new ≡ string_bytes text.old ++ until_text until) }
{
    text.push_str(" until ")?;
    push_moment(text, until)?;
    text.push_str("\n")
}

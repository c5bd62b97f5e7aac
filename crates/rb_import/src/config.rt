//! What a script is set up with.
ghost use Rattle.std.specs.Prelude.{◌≡◌, All, IfOk, IsErrOf, SomeIff, map, zip};
ghost use Rattle.std.specs.List.{enumerate_from};
ghost use Rattle.rb_script_types.specs.Config.{config_view};
ghost use Rattle.rb_import.specs.Reading.{HasItsFirst, HasItsRange, HasOptions, HasRanges};
ghost use Rattle.rb_import.specs.Scripts.{client_in, config_in, path_in};

use crate::made::MakeError;
use rb_base::{CarriedVotes, Fraction, Options, Ties};
use rb_book::MAX_RECORDS;
use rb_import_check::{SavedAnswers, SeenClient};
use rb_import_merge::{SeenSetup, answers_at, first_of};
use rb_import_setup::{ClientSetup, ImportSetup, PathSetup};
use rb_scan::Sequence;
use rb_script_types::{ClientConfig, Config, PathConfig, RefreshTo, Version};
use std::alloc::Global;

/// The chains, clients and paths.
pub(crate) fn config_of(
    alloc: Global,
    setup: &ImportSetup,
    answers: &SavedAnswers,
    seen: &SeenSetup<'_>,
) -> Result<Config, MakeError>
    ensures config { IfOk result (λ config. config_view config ≡ config_in setup.now answers.now seen.now) }
    ensures too_big { IsErrOf result MakeError.TooBig → ¬ HasRanges (config_in setup.now answers.now seen.now) }
{
    let chains = Vec::from_slice(alloc, setup.chains.as_slice())?;
    let clients = clients_of(alloc, setup, seen)?;
    let paths = paths_of(alloc, setup, answers)?;
    Ok(Config {
        version: Version::Four,
        limit: MAX_RECORDS,
        chains,
        clients,
        paths,
    })
}

fn clients_of(
    alloc: Global,
    setup: &ImportSetup,
    seen: &SeenSetup<'_>,
) -> Result<Vec<ClientConfig>, MakeError>
    ensures clients { IfOk result (λ clients. clients.items ≡ map client_in (zip setup.now.clients.items seen.now.clients.items)) }
    ensures too_big { IsErrOf result MakeError.TooBig → ¬ All HasItsRange (map client_in (zip setup.now.clients.items seen.now.clients.items)) }
{
    let mut clients = Vec::with_capacity(alloc, setup.clients.len())?;
    for (place, client) in setup.clients.iter().enumerate() {
        let Some(it) = seen.clients.get(place) else {
            break;
        };
        match client_of(client, it) {
            Some(client) => clients.push(client)?,
            None => return Err(MakeError::TooBig),
        }
    }
    Ok(clients)
}

/// A client, which judges headers as the setup says, or else its state; none where a number is outside its range.
fn client_of(client: &ClientSetup, seen: &SeenClient<'_>) -> Option<ClientConfig>
    ensures { SomeIff result (HasItsRange (client_in (client.now, seen.now))) (client_in (client.now, seen.now)) }
{
    let options = options_of(seen)?;
    let usual = seen.period.nanoseconds() / 3;
    Some(ClientConfig {
        id: client.id,
        host: client.host,
        tracks: client.tracks,
        options,
        refresh: client.terms.refresh.unwrap_or(usual),
        refresh_to: RefreshTo::Newer,
        fees: client.terms.fees,
        gas: client.terms.gas,
        limits: client.terms.limits,
    })
}

fn options_of(seen: &SeenClient<'_>) -> Option<Options>
    ensures { SomeIff result (HasOptions seen.now.drift seen.now.trust.numerator seen.now.trust.denominator) (record { period = seen.now.period; drift = seen.now.drift; trust = record { numerator = seen.now.trust.numerator; denominator = seen.now.trust.denominator }; votes = CarriedVotes.Cast; ties = Ties.Higher }) }
{
    if seen.drift > i64::MAX as u64 {
        return None;
    }
    let trust = Fraction::new(seen.trust.numerator, seen.trust.denominator).ok()?;
    let options = Options::new(seen.period, seen.drift);
    Some(
        options
            .with_trust(trust)
            .with_votes(CarriedVotes::Cast)
            .with_ties(Ties::Higher),
    )
}

fn paths_of(
    alloc: Global,
    setup: &ImportSetup,
    answers: &SavedAnswers,
) -> Result<Vec<PathConfig>, MakeError>
    ensures paths { IfOk result (λ paths. paths.items ≡ map (path_in answers.now) (enumerate_from 0 setup.now.paths.items)) }
    ensures too_big { IsErrOf result MakeError.TooBig → ¬ All HasItsFirst (map (path_in answers.now) (enumerate_from 0 setup.now.paths.items)) }
{
    let mut paths = Vec::with_capacity(alloc, setup.paths.len())?;
    for (place, path) in setup.paths.iter().enumerate() {
        match path_of(answers, place, path) {
            Some(path) => paths.push(path)?,
            None => return Err(MakeError::TooBig),
        }
    }
    Ok(paths)
}

/// The path at a place, with its first sequence; none where that is outside its range.
fn path_of(answers: &SavedAnswers, place: usize, path: &PathSetup) -> Option<PathConfig>
    ensures { SomeIff result (HasItsFirst (path_in answers.now (place, path.now))) (path_in answers.now (place, path.now)) }
{
    let first = Sequence::new(first_of(path, answers_at(&answers.paths, place)))?;
    Some(PathConfig {
        first,
        ..path.config
    })
}

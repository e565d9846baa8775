// A catalogue's turn: what it decides, the room for a change, and the change.
ghost use Rattle.std.specs.Prelude.{◌≡◌, ◌≤◌, ◌^◌, true};
ghost use Rattle.ebs_model.specs.inner.Rows.{aged};
ghost use Rattle.ebs_catalog.specs.Held.{IsDecided, IsFit, rows_in};

use crate::requests::request_of;
use crate::shown::shown;
use crate::shown_refusals::shown_refusal;
use crate::step::{Call, Step, call_of};
use crate::words::{Words, snap};
use ebs_catalog::Catalog;
use ebs_model::{
    Account, Answer, Change, Decision, Failure, LAST_SECOND, Moment, Refusal, Request, Tags,
    is_interval, is_retain, is_retention, is_size, is_size_given, is_time_of_day,
};
use std::alloc::{AllocError, Global};

/// What is answered to a step: a call, or what a catalogue does beside calls.
pub fn follow(
    alloc: Global,
    catalog: &mut Catalog,
    step: &Step<'_>,
) -> Result<Option<String>, AllocError> {
    if step.at.second > LAST_SECOND || !catalog.is_reached_by(step.at) {
        return Ok(Some(String::from_str(alloc, "late")?));
    }
    match step.call.verb {
        "end" => end(alloc, catalog, step.at),
        "row" => add_row(alloc, catalog, step.at, step.call.words),
        "offer" => call(alloc, catalog, step, call_of(step.call.words.text()), false),
        _ => call(alloc, catalog, step, step.call, true),
    }
}

// The room for the change of an `offer CALL` is made and taken back.
fn call(
    alloc: Global,
    catalog: &mut Catalog,
    step: &Step<'_>,
    call: Call<'_>,
    is_made: bool,
) -> Result<Option<String>, AllocError>
    requires later { catalog.old.latest ≤ step.now.at.second }
    requires early { step.now.at.second ≤ 2 ^ 36 }
{
    match request_of(alloc, call) {
        Some(request) => decided(alloc, catalog, step.account, step.at, &request, is_made),
        None => Ok(None),
    }
}

// What the rows answer.
fn decided(
    alloc: Global,
    catalog: &mut Catalog,
    account: Account,
    at: Moment,
    request: &Request,
    is_made: bool,
) -> Result<Option<String>, AllocError>
    requires later { catalog.old.latest ≤ at.second }
    requires early { at.second ≤ 2 ^ 36 }
{
    if !is_fit(request) {
        return refused(alloc, Refusal::BadSize);
    }
    match catalog.decide(account, at, request) {
        Ok(Decision::Change(change, answer)) => {
            if is_of(&change, account, at) {
                made(alloc, catalog, change, answer, is_made)
            } else {
                drop(change);
                drop(answer);
                refused(alloc, Refusal::Unavailable)
            }
        }
        Ok(Decision::Kept(answer)) => told(alloc, answer),
        Ok(Decision::View(answer)) => told(alloc, answer),
        Ok(Decision::Read(_row)) => Ok(Some(String::from_str(alloc, "blocks decide")?)),
        Err(Failure::Refused(refusal)) => refused(alloc, refusal),
        Err(Failure::Memory) => Err(AllocError),
    }
}

fn told(alloc: Global, answer: Answer) -> Result<Option<String>, AllocError> {
    Ok(Some(shown(alloc, &answer)?))
}

fn refused(alloc: Global, refusal: Refusal) -> Result<Option<String>, AllocError> {
    Ok(Some(shown_refusal(alloc, &refusal)?))
}

// What the rows don't ask of a request.
fn is_fit(request: &Request) -> bool
    ensures { result ≡ true → IsFit request.now }
{
    match request {
        Request::StartSnapshot { size, timeout, .. } => {
            is_size(*size) && *timeout >= 10 && *timeout <= 4320
        }
        Request::CreateVolume { origin, size, .. } => {
            is_size_given(*size) && (origin.is_some() || size.is_some())
        }
        Request::CreateRule { days, .. } => is_retention(*days),
        Request::UpdateRule { days, .. } => match days {
            None => true,
            Some(days) => is_retention(*days),
        },
        Request::CreatePolicy {
            hours,
            at,
            retain,
            ..
        } => is_interval(*hours) && is_time_of_day(*at) && is_retain(*retain),
        _ => true,
    }
}

// A change is of its caller and its moment.
fn is_of(change: &Change, account: Account, at: Moment) -> bool
    ensures account { result ≡ true → change.now.account ≡ account }
    ensures at { result ≡ true → change.now.at ≡ at }
{
    change.account == account && change.at == at
}

// What a change answers, which is made, or whose room is taken back.
fn made(
    alloc: Global,
    catalog: &mut Catalog,
    change: Change,
    answer: Answer,
    is_made: bool,
) -> Result<Option<String>, AllocError>
    requires later { catalog.old.latest ≤ change.at.second }
    requires early { change.at.second ≤ 2 ^ 36 }
    requires decided { IsDecided (aged change.at.second (rows_in catalog.old)) change }
{
    match change_rows(catalog, change, is_made) {
        Ok(()) => told(alloc, answer),
        Err(error) => {
            drop(answer);
            Err(error)
        }
    }
}

fn change_rows(catalog: &mut Catalog, change: Change, is_made: bool) -> Result<(), AllocError>
    requires later { catalog.old.latest ≤ change.at.second }
    requires early { change.at.second ≤ 2 ^ 36 }
    requires decided { IsDecided (aged change.at.second (rows_in catalog.old)) change }
{
    match catalog.prepare(&change) {
        Ok(room) => {
            if is_made {
                catalog.commit(change, room);
            } else {
                catalog.release(&change, &room);
                drop(change);
                drop(room);
            }
            Ok(())
        }
        Err(error) => {
            drop(change);
            Err(error)
        }
    }
}

// The first that time has ended is given up.
fn end(alloc: Global, catalog: &mut Catalog, at: Moment) -> Result<Option<String>, AllocError>
    requires later { catalog.old.latest ≤ at.second }
{
    let Some(key) = catalog.next_ended(at) else {
        return Ok(Some(String::from_str(alloc, "nothing")?));
    };
    catalog.end(&key, at);
    let account = key.account.number();
    let number = key.number.number();
    Ok(Some(format!(in alloc; "ended {account}.{number}")?))
}

// An upload of a GiB under any number: `row SNAPSHOT`
fn add_row(
    alloc: Global,
    catalog: &mut Catalog,
    at: Moment,
    words: Words<'_>,
) -> Result<Option<String>, AllocError>
    requires { at.second ≤ 2 ^ 36 }
{
    let Some(key) = snap(words, 0) else {
        return Ok(None);
    };
    catalog.prepare_start(&key)?;
    let tags = Tags::new(alloc);
    catalog.commit_start(at, &key, 1, None, None, tags, 10, None);
    Ok(Some(String::from_str(alloc, "added")?))
}

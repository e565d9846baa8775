// Rows that are shown.
ghost use Rattle.std.specs.Prelude.{◌≡◌, IfOk};
ghost use Rattle.std.specs.List.{filter};
ghost use Rattle.ebs_model.specs.declared.answer.Answer.TheVariants as answer;
ghost use Rattle.ebs_model.specs.inner.Follows.{Agrees};
ghost use Rattle.ebs_model.specs.Calls.Describe as describe;
ghost use Rattle.ebs_model.specs.Time as time;
ghost use Rattle.ebs_catalog.specs.Shows as shows;

use crate::catalog::Catalog;
use crate::rows::KeptRow;
use crate::views::view_of;
use ebs_model::{
    Account, Answer, Decision, Failure, Kind, Moment, Refusal, SnapKey, SnapViews, check_seen,
    stays,
};
use ebs_tables::{Filled, Sequence};
use std::alloc::{AllocError, Global};

impl Catalog {
    ghost use Rattle.ebs_model.specs.inner.Rows.{aged};
    ghost use Rattle.ebs_model.specs.Calls.Describe.{decide_describe, decide_rows};
    ghost use Rattle.ebs_catalog.specs.Held.{rows_in};
    ghost use Rattle.ebs_catalog.specs.Wants.{OnMemory, IsSettled};

    /// The row, where it is there for the account.
    pub(crate) fn decide_describe(
        &self,
        account: Account,
        at: Moment,
        key: &SnapKey,
    ) -> Result<Decision, Failure>
        ensures decided { Agrees result (decide_describe (aged at.second (rows_in self.now)) at account key.now) }
        ensures memory { OnMemory result (IsSettled (decide_describe (aged at.second (rows_in self.now)) at account key.now)) }
    {
        let Some(kept) = self.row_at(key, at) else {
            return Err(Failure::Refused(Refusal::NotFound(Kind::Snapshot)));
        };
        if let Err(refusal) = check_seen(&kept.row, account, key, at) {
            return Err(Failure::Refused(refusal));
        }
        let row = view_of(self.alloc(), account, at, key, &kept.row)?;
        Ok(Decision::View(Answer::SnapshotShown {
            created: false,
            row,
        }))
    }

    /// A page of the account's own rows, or of those in the bin: it costs the rows of the page, and those that are passed over.
    pub(crate) fn decide_rows(
        &self,
        bin: bool,
        account: Account,
        at: Moment,
        from: u32,
        max: u32,
    ) -> Result<Decision, Failure>
        ensures decided { Agrees result (decide_rows bin (aged at.second (rows_in self.now)) at account from max) }
        ensures memory { OnMemory result (IsSettled (decide_rows bin (aged at.second (rows_in self.now)) at account from max)) }
    {
        let rows = self.rows_from(account, from);
        let answer = page_of_rows(self.alloc(), rows, bin, account, at, from, max)?;
        Ok(Decision::View(answer))
    }
}

/// The first `max` of the rows that are listed, and the number of the next one.
fn page_of_rows(
    alloc: Global,
    rows: Filled<'_, SnapKey, KeptRow>,
    bin: bool,
    account: Account,
    at: Moment,
    from: u32,
    max: u32,
) -> Result<Answer, AllocError>
    ensures { IfOk result (λ page. page ≡ shows.shown_page account at.second max (filter (shows.is_listed bin account at.second from) rows.entry)) }
{
    let mut views = Vec::new(alloc);
    for (key, kept) in rows {
        if is_listed(key, kept, bin, account, at, from) {
            if views.len() == max as usize {
                return Ok(page(Some(key.number.number()), Sequence::from_vec(views)));
            }
            views.push(view_of(alloc, account, at, key, &kept.row)?)?;
        }
    }
    Ok(page(None, Sequence::from_vec(views)))
}

fn page(next: Option<u32>, rows: SnapViews) -> Answer
    ensures { result ≡ answer.SnapshotList next rows }
{
    Answer::SnapshotList { next, rows }
}

fn is_listed(
    key: &SnapKey,
    kept: &KeptRow,
    bin: bool,
    account: Account,
    at: Moment,
    from: u32,
) -> bool
    ensures { result ≡ shows.is_listed bin account at.second from (key.now, kept.now) }
{
    account == key.account
        && from <= key.number.number()
        && stays(&kept.row, at)
        && is_there(bin, is_ahead(kept.row.bin_end, at))
}

fn is_there(bin: bool, binned: bool) -> bool
    ensures { result ≡ describe.is_there bin binned }
{
    if bin { binned } else { !binned }
}

/// Whether the end lies ahead.
pub(crate) fn is_ahead(end: Option<Moment>, at: Moment) -> bool
    ensures { result ≡ time.is_ahead end at.second }
{
    match end {
        None => false,
        Some(end) => at.second < end.second,
    }
}

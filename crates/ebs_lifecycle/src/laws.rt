// What policies promise.
ghost use Rattle.ebs_lifecycle.specs.DueLaws.{LatestIsDue, AreWholeIntervalsApart, NextIsAnIntervalLater, IsDueEachDay};
ghost use Rattle.ebs_lifecycle.specs.RetentionLaws.{NewestStays, AtMostStay, LockedStay, PickedStayPicked};

/// A policy is due where its latest due moment is later than the moment that it is judged against, and else no due moment is.
pub fn due_latest()
    ensures { LatestIsDue }
{}

/// Two due moments are a whole number of intervals apart.
pub fn due_apart()
    ensures { AreWholeIntervalsApart }
{}

/// An interval after a due moment a policy is due again, and not before.
pub fn due_next()
    ensures { NextIsAnIntervalLater }
{}

/// A policy is due at the same times every day.
pub fn due_each_day()
    ensures { IsDueEachDay }
{}

/// Under a count the newest snapshot stays.
pub fn newest_stays()
    ensures { NewestStays }
{}

/// Under a count of n, of snapshots that are each there once, all but n at most are picked.
pub fn at_most_stay()
    ensures { AtMostStay }
{}

/// No locked snapshot is deleted, and none of another tier than the standard one. What is released is locked, so none is
/// both.
pub fn locked_stay()
    ensures { LockedStay }
{}

/// What is picked is picked at each later moment, of the same snapshots.
pub fn picked_stay_picked()
    ensures { PickedStayPicked }
{}

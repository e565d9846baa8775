// What follows of the exchanges of the runs of the program over one disk, and of the stops between them.
ghost use Rattle.ebs_exchanges.specs.inner.LifeLaws.{CommandIsLost, LifeReadsBack, LivesAged, LivesAgain, LivesOn, LivesOnByCommand, LivesUntold, RunIsOfCalls, StopForgetsTimeAlone};

use ebs_laws::{
    bytes_stay_until_put, changes_are_counted, creation_acts_once, numbers_are_given_once,
    run_has_bytes, run_makes_of_volumes, shown_row_is_the_row, start_acts_once,
    time_passes_in_parts, tokens_are_kept, volume_stays, written_is_read,
};
use ebs_print::faults_are_told;

/// Runs, commands and stops make one life.
pub fn life_goes_on()
    ensures on { LivesOn }
    ensures again { LivesAgain }
    ensures untold { LivesUntold }
    ensures command { LivesOnByCommand }
    ensures untold_command { CommandIsLost }
    ensures aged { LivesAged }
{}

/// A stop of the program takes back nothing but time that has passed.
pub fn stop_forgets_time_alone()
    ensures { StopForgetsTimeAlone }
{
    time_passes_in_parts();
}

/// A get of a snapshot, or a read of a volume, that is answered by status 200 gives the bytes that were put last, in this run of the program
/// or in an earlier one.
pub fn read_back()
    ensures { LifeReadsBack }
{
    faults_are_told();
    bytes_stay_until_put();
    numbers_are_given_once();
    start_acts_once();
    creation_acts_once();
    tokens_are_kept();
    volume_stays();
    written_is_read();
    run_makes_of_volumes();
    run_has_bytes();
    shown_row_is_the_row();
    changes_are_counted();
    time_passes_in_parts();
}

/// What a run of the program does is a run of the machine, so its laws hold of it.
pub fn run_is_of_calls()
    ensures { RunIsOfCalls }
{}

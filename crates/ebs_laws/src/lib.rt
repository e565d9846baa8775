//! Laws of the snapshot machine: what it does, said of its steps and runs. Each is a function with an empty body, whose
//! clauses are the law.
#![tactic(auto)]

mod access;
mod bin;
mod blocks;
mod client_tokens;
mod deletions;
mod disks;
mod isolation;
mod lists;
mod locks;
mod orders;
mod policies;
mod puts;
mod rows;
mod rules;
mod runs;
mod sharing;
mod shown;
mod starts;
mod tiers;
mod time;
mod turns;
mod uploads;
mod volumes;

pub use access::{
    others_change_nothing, owner_alone_writes, readers_alone_read, readers_are_answered,
};
pub use bin::{binned_is_hidden, deleted_is_restored, ends_stay, longest_rule_decides};
pub use blocks::bytes_stay_until_put;
pub use client_tokens::{start_acts_once, tokens_are_kept};
pub use deletions::{children_outlive_parents, deleted_goes_by_rules, deleted_stays_gone};
pub use disks::{
    nothing_else_moves_a_snapshot, snapshot_is_of_its_moment, volume_deletion_leaves_others,
    write_is_as_asked, written_is_read,
};
pub use isolation::own_rows_alone;
pub use lists::{
    change_pages_join, changes_make_second, list_has_each_block, listed_token_reads,
    pages_join_by_tokens, secret_stays,
};
pub use locks::{compliance_is_kept, lock_is_as_asked, locked_is_kept};
pub use orders::refusals_have_order;
pub use policies::{
    at_most_are_left, newest_stays, policy_ids_differ, policy_is_as_asked, policy_stays,
    run_again_makes_nothing, run_makes_of_volumes, run_spares,
};
pub use puts::{
    changes_are_counted, counts_fit, indexes_fit, put_writes_one_block, read_gives_block,
    run_keeps_block, run_reads_last_put, stamps_are_new, stamps_tell_bytes,
};
pub use rows::{reads_leave_machine, rows_alone, time_in_rows};
pub use rules::{
    created_rules_differ, locked_rule_is_kept, rule_is_as_asked, rules_fit, shown_rule_is_the_rule,
};
pub use runs::{
    given_ids_differ, run_has_bytes, run_keeps_newest, run_makes_each_target, starts_are_passed,
};
pub use sharing::{sharing_is_as_asked, withdrawn_reads_nothing};
pub use shown::{list_has_own_rows, shown_row_is_the_row};
pub use starts::{start_has_room, started_ids_differ, started_row_is_wanted};
pub use tiers::{archived_is_not_read, archived_reads_again, tier_is_as_asked};
pub use time::{
    call_moves_clock, clock_follows_reading, put_lasts_timeout, refused_call_changes_nothing,
    time_passes_in_parts, time_takes_and_leaves,
};
pub use turns::step_accepts_or_refuses;
pub use uploads::{
    checksum_ignores_order, checksum_is_of_digests, child_begins_as_parent, complete_keeps_blocks,
    completed_blocks_stay, keys_are_places, numbers_are_given_once, numbers_fit,
    start_gives_number,
};
pub use volumes::{
    created_ids_differ, creation_acts_once, volume_is_as_asked, volume_is_the_owners, volume_stays,
};

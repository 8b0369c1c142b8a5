//! Laws of facts that are kept in groups, one for each region: what groups add up to, and what an edit changes. The crate
//! has no code to call: its functions do nothing, and each law is the contract of one.
#![tactic(auto)]

mod laws;

pub use laws::{
    answers_differ_by_the_groups_that_differ, ascending_lists_are_told_by_their_members,
    codes_of_equal_groups_can_be_left_out, edits_change_two_cells_at_most,
    edits_move_groups_by_one_fact, edits_move_sums_by_one_fact,
    edits_refresh_the_groups_that_are_respread, edits_refresh_what_covers_reweighed_cells,
    edits_replace_one_fact, equal_regions_have_equal_spreads,
    facts_follow_by_the_groups_that_differ, groups_answer_as_facts, groups_elsewhere_stay,
    groups_stand_for_their_facts, groups_stay_but_at_the_codes_of_an_edit,
    other_regions_keep_their_spread, reweighed_cells_are_changed,
    rows_differ_by_the_groups_that_differ, same_allocations_are_equal,
    sums_over_items_are_sums_over_keys, values_of_keys_are_taken_once, worked_groups,
};

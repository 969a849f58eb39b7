//! The laws: calls that do nothing.

use draw_lines::{law_head_before_separator, law_lines_lose_their_ends, law_pieces_are_lines};
use draw_state::{
    law_offered_is_accepted, law_one_outcome, law_one_run, law_replies_name_teams, law_states_stay,
    law_steps_below_limit,
};
use draw_tables::{
    law_legal_where_nothing_broken, law_offer_where_decided, law_offered_where_possible,
    law_one_first_broken, law_one_offer, law_one_table_of_text, law_states_name_teams,
};
use draw_top::{law_answer_exists, law_answer_or_refusal, law_one_answer};
use rule_sets::{
    law_files_have_form, law_files_have_pairs, law_first_bad_pair, law_first_fault_of_bytes,
};
use team_files::{law_find_by_code, law_first_fault, law_same_code};

#[test]
fn laws_of_files_return(_rt: HostRuntime) {
    law_first_fault();
    law_find_by_code();
    law_same_code();
    law_first_bad_pair();
    law_first_fault_of_bytes();
    law_files_have_form();
    law_files_have_pairs();
}

#[test]
fn laws_of_tables_return(_rt: HostRuntime) {
    law_one_offer();
    law_offered_where_possible();
    law_offer_where_decided();
    law_states_name_teams();
    law_legal_where_nothing_broken();
    law_one_first_broken();
    law_one_table_of_text();
}

#[test]
fn laws_of_pairings_return(_rt: HostRuntime) {
    pairing_draw::law_completable_where_satisfied();
    pairing_draw::law_rules_and_questions_are_formed();
    pairing_draw::law_tables_satisfy();
    pairing_draw::law_values_complete();
    pairing_draw::law_values_of_tables();
    pairing_draw::law_offer_exists();
}

#[test]
fn laws_of_group_draws_return(_rt: HostRuntime) {
    group_draw::law_agreeing_satisfy();
    group_draw::law_values_agree();
    group_draw::law_tables_satisfy();
    group_draw::law_values_complete();
    group_draw::law_completable_where_satisfied();
    group_draw::law_completable_is_clean();
    group_draw::law_offer_exists();
    group_draw::law_possible_where_not_held();
    group_draw::law_rules_and_questions_are_formed();
    group_draw::law_worked_files();
}

#[test]
fn laws_of_commands_return(_rt: HostRuntime) {
    law_states_stay();
    law_one_outcome();
    law_offered_is_accepted();
    law_steps_below_limit();
    law_replies_name_teams();
    law_one_run();
}

#[test]
fn laws_of_answers_return(_rt: HostRuntime) {
    law_pieces_are_lines();
    law_lines_lose_their_ends();
    law_head_before_separator();
    law_one_answer();
    law_answer_exists();
    law_answer_or_refusal();
}

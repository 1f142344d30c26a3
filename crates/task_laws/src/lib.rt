//! Laws over the definitions of `task_model`: each is a function that does nothing, and whose clauses hold of the
//! definitions alone.
#![tactic(auto)]

mod laws;

pub use laws::{
    beginnings_are_prefixes, by_the_rules, entries_are_in_order, failing_offers_nothing,
    foot_alone_decides, foot_frames_offers_and_widgets, foot_frames_strides, foot_frames_tests,
    foot_frames_values_and_failing, foot_is_in_order, inputs_act_at_their_address,
    next_stands_alone, nodes_before_bodies, nodes_have_places, offered_or_not, one_interface,
    one_outcome, one_page, one_result, one_state, prefixes_are_legal, written_programs_are_placed,
};

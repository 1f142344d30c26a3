//! Laws on typing over the definitions of `task_model`: each is a function that does nothing, and whose clauses hold of the
//! definitions alone.
#![tactic(auto)]

mod laws;

pub use laws::{
    definitions_and_bodies_stand, fitting_trees_have_their_places, grown_lists_serve,
    histories_fit, opening_fits, parts_are_typed, tree_values_have_the_type, typed_plans_go_on,
    types_are_kept, types_are_unique,
};

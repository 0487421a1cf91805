//! The correlator as a machine of events, in definitions alone, and the laws of its runs.
#![tactic(auto)]

pub mod examples;
mod run_laws;
mod state_laws;

pub use run_laws::{
    a_front_of_the_output_is_appended, a_front_of_the_output_is_sent, no_state_is_stuck,
    the_whole_output_is_sent,
};
pub use state_laws::{
    closed_columns_fit, each_move_is_one_step, next_events_fit, states_stay_proper,
    works_and_slots_agree,
};

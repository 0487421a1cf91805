//! The plan of a run, and the definitions that every other crate's contracts cite.
#![tactic(auto)]

mod assembly_laws;
pub mod examples;
mod feed_laws;
mod heap;
mod item;
mod numbering;
mod observation;
mod output_laws;
mod packet_laws;
mod plan;
mod pointer;
mod stream_laws;
mod sum_laws;
mod table_laws;
#[cfg(test)]
mod tests;
mod verdict;
mod verdict_laws;
mod window_laws;

pub use assembly_laws::{
    each_byte_once, no_made_up_byte, packets_end_within_their_sizes, whole_payload_has_its_size,
};
pub use feed_laws::{
    ended_front_took_all, given_columns_are_final, next_report, next_table,
    unreached_columns_are_empty,
};
pub use heap::DropCause;
pub use item::{DescRefusal, Dim, ItemType};
pub use numbering::{baseline, pair};
pub use observation::{Observation, Unheard};
pub use output_laws::{
    a_heap_for_each_accumulation, counters_in_order, lengths_of_payloads, lengths_of_values,
    pairs_in_baseline_order, slots_and_workers_change_nothing, written_packet_is_read_back,
};
pub use packet_laws::{read_as_spelled, refused_or_spelled, spelled_at_most_once};
pub use plan::Plan;
pub use pointer::{Pointer, Refusal};
pub use stream_laws::{
    closed_columns_are_final, later_heaps_are_above_the_floor, next_fate, next_heard, next_judged,
    next_made, next_member, next_placed, next_whole_heap, next_whole_in, one_heap_at_a_place,
    rest_says_nothing, strings_that_count,
};
pub use sum_laws::{
    missing_is_the_same_turned_round, parts_add, parts_are_small, turned_round_is_conjugate,
    two_lists_alone,
};
pub use table_laws::{bad_descriptor_changes_nothing, descriptor_is_the_entry_of_its_id};
pub use verdict::{Ending, Verdict};
pub use verdict_laws::{
    each_heap_is_judged_at_one_packet, each_string_is_counted_once, each_used_heap_fills_a_cell,
    next_eviction, next_packet_verdict, packet_makes_the_whole_heap, rest_is_not_reported,
};
pub use window_laws::{
    counters_tell_heaps_apart, first_heap_is_evicted, new_window, packet_joins_its_heap,
    packet_opens_a_heap,
};

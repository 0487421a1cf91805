//! Worked examples: runs of the program's one call over objects in memory, with values by hand.
#![tactic(auto)]

#[cfg(test)]
mod assembly_tests;
#[cfg(test)]
mod correlate_tests;
#[cfg(test)]
mod cut_tests;
#[cfg(test)]
mod fault_tests;
#[cfg(test)]
mod literal;
#[cfg(test)]
mod literal_tests;
#[cfg(test)]
mod meeting_tests;
#[cfg(test)]
mod output;
#[cfg(test)]
mod outside;
#[cfg(test)]
mod packets;
#[cfg(test)]
mod plain_tests;
#[cfg(test)]
mod schedule_tests;
#[cfg(test)]
mod thread_tests;
#[cfg(test)]
mod tool_tests;
#[cfg(test)]
mod trial_tests;
#[cfg(test)]
mod watched;
#[cfg(test)]
mod words_tests;

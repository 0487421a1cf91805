//! Worked examples: streams fed string by string, with verdicts, reports and columns by hand.
#![tactic(auto)]

#[cfg(test)]
mod column_tests;
#[cfg(test)]
mod fed;
#[cfg(test)]
mod packets;
#[cfg(test)]
mod strings;
#[cfg(test)]
mod verdict_tests;

//! Tests of the race, the engines, and what they are made of, through public calls alone.
#![tactic(auto)]

#[cfg(test)]
mod chains_tests;
#[cfg(test)]
mod coincidence_tests;
#[cfg(test)]
mod green_tests;
#[cfg(test)]
mod helpers;
#[cfg(test)]
mod race_tests;
#[cfg(test)]
mod reduced_automaton_tests;
#[cfg(test)]
mod sims_one_part_tests;
#[cfg(test)]
mod sims_one_tests;
#[cfg(test)]
mod turns_tests;

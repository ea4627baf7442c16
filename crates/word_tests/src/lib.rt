//! Tests of options, bytes, words, presentations, elements and graphs, through public calls alone.
#![tactic(auto)]

#[cfg(test)]
mod elements_tests;
#[cfg(test)]
mod ports_tests;
#[cfg(test)]
mod presentation_tests;
#[cfg(test)]
mod settings_tests;
#[cfg(test)]
mod word_graph_tests;
#[cfg(test)]
mod words_tests;

//! Engines that are advanced turn by turn, and the race of several for one decision.
//!
//! A [`Racer`] is an engine with one condition of its own to decide, as whether a coset enumeration
//! ends within its budget. Its contract says what each turn's answer, a [`Progress`], means.
//! Engines race in [`Lane`]s for one word: the first lane that has decided publishes its number
//! there, and the others see it and stop. [`play`] runs a race on one thread, by any schedule, and
//! [`race`] runs it over threads; the laws in [`facts`] say what holds of every race. [`Scripted`]
//! is an engine for tests, which gives answers that it was told.
#![tactic(auto)]

mod engines;
pub mod facts;
mod groups;
mod lanes;
mod numbers;
mod playing;
mod scripted;
mod seated_lane;
mod steps;
mod threads;
mod winner;

pub use engines::{Progress, Racer};
pub use lanes::{Lane, LaneState, Step, begin, settle, turn};
pub use playing::{Outcome, play};
pub use scripted::Scripted;
pub use threads::race;

//! Stages, the compiler and what makes jobs, tried: merges, a list, a refined set, a machine without an application, the texts of
//! generated jobs, and two workers that compile side by side.
//!
//! The libraries that others stand on, tried: a link between two threads, and with both ends in one hand.
#![tactic(auto)]

#[cfg(test)]
mod applications;
#[cfg(test)]
mod by_hand;
#[cfg(test)]
mod links;
#[cfg(test)]
mod refined;
#[cfg(test)]
mod texts;
#[cfg(test)]
mod workers;

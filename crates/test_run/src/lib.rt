//! Tests of the program's commands. A race is worked by several threads at once, and what comes of it is what a script
//! comes to. Made scripts have the summaries that another program reckoned from the rules alone.
//!
//! It has nothing but tests.
#![tactic(auto)]

#[cfg(test)]
mod long;
#[cfg(test)]
mod made;
#[cfg(test)]
mod races;

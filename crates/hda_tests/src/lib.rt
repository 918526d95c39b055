//! Tests that are no cases in files, a module a subject: shelves, sinks, supplies of sound, lists, the journal of a rig,
//! both streams of one in turns, how often signals are worked out, and the text of what pins heard. They stand here, above all of these, since a crate
//! with tests is proved once with them and once without. Each calls what no clause can promise to succeed, or compares
//! with values that come from the standard or were worked out by hand.
#![tactic(auto)]

#[cfg(test)]
mod controllers;
#[cfg(test)]
mod inputs;
#[cfg(test)]
mod items;
#[cfg(test)]
mod outside;
#[cfg(test)]
mod rigs;
#[cfg(test)]
mod streams;
#[cfg(test)]
mod texts;
#[cfg(test)]
mod verbs;

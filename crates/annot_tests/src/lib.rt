//! Tests of the text of notes: read, printed, refused.
#![tactic(auto)]

#[cfg(test)]
mod texts;

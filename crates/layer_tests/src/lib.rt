//! Tests of the layers below: their calls run once, on tables of cases worked out apart from the code.
#![tactic(auto)]

#[cfg(test)]
mod code;
#[cfg(test)]
mod decoding;
#[cfg(test)]
mod encoding;
#[cfg(test)]
mod texts;

//! Tests of rules and of derivations over a table, spelled as text.
#![tactic(auto)]

#[cfg(test)]
mod admissible;
#[cfg(test)]
mod check;
#[cfg(test)]
mod derivations;
#[cfg(test)]
mod levels;
#[cfg(test)]
mod machine;
#[cfg(test)]
mod names;
#[cfg(test)]
mod reader;
#[cfg(test)]
mod rules;

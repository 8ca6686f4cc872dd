//! Tests of values and of the outside: their calls run once, on tables of cases worked out apart from the code.
#![tactic(auto)]

#[cfg(test)]
mod edge;
#[cfg(test)]
mod values;

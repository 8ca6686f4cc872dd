//! Tests of what others can reach of a module: real modules are validated and looked at.
#![tactic(auto)]

#[cfg(test)]
mod tests;

//! Sessions of a small module and a host, run: real configurations meet the conditions of the calls.
#![tactic(auto)]

#[cfg(test)]
mod hosting;
#[cfg(test)]
mod rows;
#[cfg(test)]
mod running;
#[cfg(test)]
mod steps;
#[cfg(test)]
mod tests;

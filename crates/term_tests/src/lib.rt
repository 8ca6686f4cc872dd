//! Tests of terms and formulas, as trees and over a table.
#![tactic(auto)]

#[cfg(test)]
mod cells;
#[cfg(test)]
mod tables;
#[cfg(test)]
mod terms;
#[cfg(test)]
mod trees;

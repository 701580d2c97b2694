//! Fractions of whole numbers, in contracts and proofs alone.
//!
//! This crate has no function. `specs/` has what the crates above cite in their contracts: fractions, their order by
//! cross products, their sums, products, least, greatest and floor, and the units of 10^-18 in which the programs count.
//! `proofs/` has the laws: those of a ring and of its order for whole numbers (`Ring`), bounds on a magnitude
//! (`Within`), finite sums (`Sums`), the order of fractions (`Order`, `Strict`), fractions at one scale, where a linear
//! step is one of whole numbers (`Scale`, `Linear`, `Ends`), and floors (`Floors`).
#![tactic(auto)]

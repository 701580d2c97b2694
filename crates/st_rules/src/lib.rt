//! Rules in an order, the first of them that is broken, and answers that agree, in contracts and proofs alone.
//!
//! This crate has no function. `specs/` has what the crates above cite in their contracts: the first broken rule of a
//! list, the rules of so many places in turn (`Rules`), answers that agree but for want of memory, and what an answer
//! may be where memory may be wanting at any time (`Agree`). `proofs/` has the laws: of lists of rules and of places
//! (`First`), of what can be told (`Told`), of two ways to keep the same rules (`Alike`), and of answers (`Agreed`).
#![tactic(auto)]

// Reading and checking: the layer that takes every byte string, checks it itself and comes to an end.
// The definitions that the contracts cite are in specs/, in document 01's words and order; those of the two forms are of the crate below, and so are their types.
#![tactic(auto)]

mod answers;
pub mod check;
pub mod reader;

pub use forms::{Answer, Fault, Graph, Header, Refused, Verdict};

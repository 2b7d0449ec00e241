//! The flow of a program as a graph, in the DOT language of Graphviz.
//!
//! [`graph::write_graph`] writes a node for each basic block, with the lines of its listing, and the edges that leave it. A
//! branch that is taken has its condition on its edge. Where it is asked for, a node begins with what is known before its
//! block, and an edge has what is lost where it leads. The text is a function of the program and of what the verifier looked at,
//! defined in specs/.
//!
//! To be read in this order: `blocks`, `condition`, `edges`, `entry`, `node`, `graph`.
#![tactic(auto)]

mod blocks;
mod condition;
mod edges;
mod entry;
pub mod graph;
mod node;

//! Page numbers, handed out as spans of neighbouring pages.
//!
//! An [`Arena`] accounts for up to 256 pages. A caller takes a [`Span`] of as many neighbouring pages as it
//! needs and gives it back when it is done. Seen from outside an arena is a set of disjoint spans that are out:
//! `take` adds a span that meets none of them and refuses exactly where no such span exists, `give` takes away
//! exactly a span that is out and refuses any other. Only `new` takes memory.
//!
//! The arena knows page numbers alone. What lies in a page is the business of whoever took it.
#![tactic(auto)]

mod arena;
mod classes;
mod fault;
mod fit;
mod segment;
mod span;
mod word;

pub use arena::{Arena, MAX_PAGES};
pub use fault::{ArenaFault, NoSpan};
pub use span::Span;

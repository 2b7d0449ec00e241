//! From a program whose jumps may lead back to one of which every jump leads forward: laid out anew, or with its loops unrolled; or why
//! there is none, in words.
//!
//! [`forward::lead_forward`] tries both, by ebpf_layout and ebpf_unroll. [`why_not::why_not`] says why neither could be had, in the words that the
//! commands write, as lines ([`lines::write_lines`]) or as JSON.
//!
//! To be read in this order: `fault`, `forward`, `exit_text`, `refused`, `loops`, `why_not`, `lines`.
#![tactic(auto)]

mod exit_text;
pub mod fault;
pub mod forward;
pub mod lines;
mod loops;
mod refused;
pub mod why_not;

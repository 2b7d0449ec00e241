//! The commands over scripts: `check` judges a script's programs, `replay` makes the world after its events as well, and `run`
//! does its jobs.
//!
//! What `check` and `replay` write is a function of what they read, errors included; of what `run` writes that much is open which
//! calls of `new` found no object, and what calls of `swap` found on a shelf. They write nothing else: that is the contract of
//! [`check`], [`replay`] and [`run`], which write plain text. In a format, text or JSON, it is the contract of
//! [`check_script::check_script`], which says why programs are refused if that is asked for, of
//! [`replay_script::replay_script`] and of [`run_script::run_script`].
//!
//! To be read in this order: `script_fault`, `check_script`, `event_codes`, `replay_script`, `run_ask`, `run_script`, `commands`.
#![tactic(auto)]

pub mod check_script;
mod commands;
mod event_codes;
pub mod replay_script;
pub mod run_ask;
pub mod run_script;
mod script_fault;

pub use commands::{check, replay, run};
pub use ebpf_command::done::{Done, EngineFault};

//! The functions of an object file that a compiler of eBPF programs made: ELF64, little-endian, machine 247, relocatable.
//!
//! [`function::function_named`] and [`function::only_function`] take a function's bytes from the bytes of a file, and
//! [`source::lines_of`] the lines of C that it came from, as `.BTF` and `.BTF.ext` have them. Each reader answers on any bytes: what the
//! file says, or the first fault in a stated order. A function that needs another part of the file is no program by itself,
//! and is refused with the slot and the symbol. [`data_function::function_with_data`] also takes a function that loads addresses of read-only
//! data, and reports which. Nothing is allocated but for that data, and the time is linear in the size of the file: names have at most 255
//! bytes, and no table is read more than a few times.
//!
//! To be read in this order: `fault`, `field`, `header`, `section`, `text`, `symbol`, `relocation`, `call`, `functions`, `symbol_name`,
//! `outside`, `object_fault`, `function`, `coded`, `lines`, `shown`, `slot_lines`, `source`, `holding_line`, `meant`, `marks`, `data_use`,
//! `data_function`, `data_parts`, `data_names`, `entry`.
#![tactic(auto)]

mod call;
pub mod coded;
pub mod data_function;
pub mod data_names;
pub mod data_parts;
pub mod data_use;
pub mod entry;
pub mod fault;
mod field;
pub mod function;
pub mod functions;
mod header;
pub mod holding_line;
pub mod lines;
mod marks;
mod meant;
pub mod object_fault;
pub mod outside;
mod relocation;
mod section;
mod shown;
pub mod slot_lines;
pub mod source;
mod symbol;
mod symbol_name;
mod text;

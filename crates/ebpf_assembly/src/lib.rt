//! From the text of a program to the program: reads back what a listing writes, as a person may write it too.
//!
//! A text has a line for each instruction, in the words of [`ebpf_text`]: the mnemonic and the operands. Spaces, tabs, carriage
//! returns and commas separate words, a semicolon begins a comment, and blank lines are passed over. A line may begin with
//! the slot of its instruction and a colon, as those of a listing do; it has to be the slot at which the instruction is placed.
//! Or it begins with a label, a name and a colon, with its instruction after it or on a later line; then a jump may name that slot in
//! place of an offset. Numbers are written as a listing writes them: in decimal with no leading zero, an immediate with a sign only
//! where it is negative, and an offset always with one. There are no other writings of a number.
//!
//! [`assemble::assemble`] accepts exactly these texts, and else names the first line at fault and why. The listing of a program is
//! such a text, and of no other program: so assembling it gives the program again. [`cause::cause_of`] looks at the line at fault again,
//! word by word.
//!
//! To be read in this order: `fault`, `words`, `number`, `operand`, `kind`, `operands`, `insn`, `line`, `label`, `plain`, `assemble`,
//! `cause`, `laws`.
#![tactic(auto)]

pub mod assemble;
pub mod cause;
pub mod fault;
mod insn;
mod kind;
mod label;
pub mod laws;
mod line;
mod number;
mod operand;
mod operands;
mod plain;
mod words;

//! What holds of texts and programs, whatever memory there is.

ghost use Rattle.std.specs.Prelude.{◌≡◌, ℕ, List, Option};
ghost use Rattle.ebpf_insn.specs.declared.insn.Insn.{Insn};
ghost use Rattle.ebpf_insn.specs.Encoding.{IsWellFormed};
ghost use Rattle.ebpf_text.specs.Listing.{listing_of};
ghost use Rattle.ebpf_assembly.specs.Lines.{IsAssembledPlain};
ghost use Rattle.ebpf_assembly.specs.Assembly.{IsAssembled};

/// A text is of one program at most, and the listing of a program is a text of it. A text that is of a program without labels is of
/// the same program with them.
#[tactic(auto, using(crate::proofs::WithoutLabels::named_unique, crate::proofs::WithoutLabels::plain_assembled, crate::proofs::WithoutLabels::named_listing))]
pub fn a_text_is_of_one_program()
    ensures one { (text : List ℕ) (p q : List (Option Insn)) → IsAssembled text p → IsAssembled text q → p ≡ q }
    ensures plain { (text : List ℕ) (p : List (Option Insn)) → IsAssembledPlain text p → IsAssembled text p }
    ensures listed { (p : List (Option Insn)) → IsWellFormed p → IsAssembled (listing_of p) p }
{}

//! A function and its data as a program and the bytes after its context.

ghost use Rattle.std.specs.Prelude.{◌≡◌, ◌+◌, ◌<◌, IfOk, IfErr, IfSome, length};
ghost use Rattle.ebpf_object_file.specs.DataFunction.{HasUses};
ghost use Rattle.ebpf_object_file.specs.DataParts.{HasParts};
ghost use Rattle.ebpf_verify.specs.Verdict.{AreRows};
ghost use Rattle.ebpf_verify.specs.declared.decl.TheConstants.{MAX_CONTEXT};
ghost use Rattle.ebpf_loader.specs.Sentences.{HasNames};
ghost use Rattle.ebpf_loader.specs.Loading.{IsLinkedWith, IsLoadedWith, IsLoadFault, IsUnlinkedFault, IsWhole};

use crate::fault::LoadFault;
use ebpf_insn::decode::decode;
use ebpf_insn::encode::encode;
use ebpf_insn::fault::DecodeFault;
use ebpf_insn::program::Program;
use ebpf_link::choice::linked;
use ebpf_link::fault::LinkFault;
use ebpf_object_file::data_function::DataFunction;
use ebpf_object_file::data_parts::Data;
use ebpf_state::kinds::KindRow;
use ebpf_verify::decl::{Decl, MAX_CONTEXT};
use std::alloc::Global;

/// A function of an object file, linked with the data that it uses.
#[derive(Drop)]
pub struct Loaded {
    /// The slots of the linked program, eight bytes each: it has one slot in front of the function's.
    pub bytes: Vec<u8>,
    /// The bytes of the data, which come after the context's.
    pub data: Vec<u8>,
    /// What is declared: a context that has the data's bytes too, and as many objects as before.
    pub decl: Decl,
    /// The word of the stack that has the context's pointer, in bytes from r10.
    pub word: i16,
}

/// Links a function with the data that it uses, for a declaration of its context alone, and these kinds of object.
///
/// # Errors
/// By its cause: see [`LoadFault`].
pub fn load(
    alloc: Global,
    file: &[u8],
    function: &DataFunction<'_>,
    decl: Decl,
    kinds: &[KindRow],
) -> Result<Loaded, LoadFault>
    requires rows { AreRows kinds.now }
    requires uses { HasUses file.now function.now.uses.items }
    ensures loaded { IfOk result (IsLoadedWith file.now function.now decl kinds.now) }
    ensures refused { IfErr result (IsLoadFault file.now function.now decl kinds.now) }
    ensures declared { IfOk result (λ l. l.decl.context ≡ decl.context + length l.data.items) }
    ensures named { IfErr result (λ e. HasNames file.now e) }
{
    let program = match decode(alloc, function.function.code) {
        Ok(program) => program,
        Err(DecodeFault::Bad { slot, code }) => return Err(LoadFault::Undecoded { slot, code }),
        Err(DecodeFault::NoMemory) => return Err(LoadFault::NoMemory),
    };
    let data = function.data(alloc, file)?;
    match declared(decl, data.size) {
        Some(whole) => link_data(alloc, file, program, data, decl, whole, kinds),
        None => Err(LoadFault::TooLong {
            context: decl.context,
            laid: data,
        }),
    }
}

// What is declared of a context and this many bytes of data, if that isn't too much.
fn declared(decl: Decl, size: u64) -> Option<Decl>
    ensures value { IfSome result (IsWhole decl size) }
    ensures none { result ≡ None → MAX_CONTEXT < decl.context + size }
{
    if size > MAX_CONTEXT as u64 {
        return None;
    }
    Decl::new(decl.context + size as u32, decl.held)
}

// Links a program with data for which there is room.
fn link_data(
    alloc: Global,
    file: &[u8],
    program: Program,
    laid: Data,
    decl: Decl,
    whole: Decl,
    kinds: &[KindRow],
) -> Result<Loaded, LoadFault>
    requires rows { AreRows kinds.now }
    requires parts { HasParts file.now laid }
    ensures loaded { IfOk result (IsLinkedWith file.now program laid decl whole kinds.now) }
    ensures refused { IfErr result (IsUnlinkedFault program laid decl whole kinds.now) }
    ensures named { IfErr result (λ e. HasNames file.now e) }
{
    match linked(alloc, &program, &laid.offsets, decl.context, whole, kinds) {
        Ok(linked) => {
            let bytes = encode(alloc, &linked.program)?;
            Ok(Loaded {
                bytes,
                data: laid.bytes(alloc, file)?,
                decl: whole,
                word: linked.word,
            })
        }
        Err(LinkFault::NoMemory) => Err(LoadFault::NoMemory),
        Err(fault) => Err(LoadFault::Unlinked { program, fault }),
    }
}

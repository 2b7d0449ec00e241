//! What is asked of a command over a function that reads data of its object file.

ghost use Rattle.std.specs.Prelude.{◌≡◌, IfOk, IfErr, length};
ghost use Rattle.ebpf_input.specs.NoRequest.{CanBeNamed};
ghost use Rattle.ebpf_input.specs.DataRequest.{CanNameData, IsDataRequest, IsNoRequest, IsJoined, IsNoRequestOf, IsRequestOf, own_slot};

use crate::ask::Ask;
use crate::form::Form;
use crate::request::{Request, requested};
use ebpf_command::done::{FaultCode, Stop};
use ebpf_loader::fault::LoadFault;
use ebpf_loader::load::{Loaded, load};
use ebpf_object_file::data_function::{DataFault, DataFunction, function_with_data};
use ebpf_object_file::object_fault::ObjectFault;
use ebpf_state::kinds::kinds;
use std::alloc::{AllocError, Global};

/// A request for a function that is linked with the data that it reads.
#[derive(Drop)]
pub struct DataRequest<'a> {
    /// The function. The program has one slot more than it, in front.
    pub function: DataFunction<'a>,
    /// The linked program, the context with the data at its end, and what is declared of both.
    pub request: Request,
    /// The bytes of the data alone.
    pub data: Vec<u8>,
    /// The word of the stack that has the context's pointer, in bytes from r10.
    pub word: i16,
}

/// Why there is no such request.
#[derive(Drop)]
pub enum NoRequest<'a> {
    /// The file has no such function, or the function needs more of the file than data.
    Object(ObjectFault<'a>),
    /// An option can't be used.
    Unused {
        function: DataFunction<'a>,
        code: FaultCode,
    },
    /// The function can't be linked with its data.
    Unloaded {
        function: DataFunction<'a>,
        fault: LoadFault,
    },
    /// An allocation failed.
    NoMemory,
}

/// The slot of the function that a slot of its linked program has: the one before it, and none of the slot in front.
pub fn own_slot(slot: Option<u16>) -> Option<u16>
    ensures { result ≡ own_slot slot }
{
    match slot {
        Some(slot) if slot > 0 => Some(slot - 1),
        _ => None,
    }
}

/// The request that a function of a file makes with the options `--context` and `--held`.
///
/// # Errors
/// By its cause, in the order of [`NoRequest`].
pub fn requested_with_data<'a>(
    alloc: Global,
    ask: &Ask<'_>,
    name: &str,
    file: &'a [u8],
) -> Result<DataRequest<'a>, NoRequest<'a>>
    ensures found { IfOk result (IsDataRequest ask.now name.now file.now) }
    ensures declared { IfOk result (λ r. r.request.decl.context ≡ length r.request.context.items) }
    // What its data can be laid out from, and what names it.
    ensures data { IfOk result (λ r. CanNameData file.now r.function) }
    ensures refused { IfErr result (λ e. IsNoRequest ask.now name.now file.now e) }
    ensures named { IfErr result (λ e. CanBeNamed file.now e) }
{
    match function_with_data(alloc, file, name.as_bytes()) {
        Ok(function) => requested_of(alloc, ask, file, function),
        Err(DataFault::Object(fault)) => Err(NoRequest::Object(fault)),
        Err(DataFault::NoMemory) => Err(NoRequest::NoMemory),
    }
}

// The request that a function makes.
fn requested_of<'a>(
    alloc: Global,
    ask: &Ask<'_>,
    file: &[u8],
    function: DataFunction<'a>,
) -> Result<DataRequest<'a>, NoRequest<'a>>
    requires data { CanNameData file.now function }
    ensures found { IfOk result (IsRequestOf ask.now file.now function.entry) }
    ensures declared { IfOk result (λ r. r.request.decl.context ≡ length r.request.context.items) }
    ensures data { IfOk result (λ r. CanNameData file.now r.function) }
    ensures refused { IfErr result (λ e. IsNoRequestOf ask.now file.now function.entry e) }
    ensures named { IfErr result (λ e. CanBeNamed file.now e) }
{
    let code = function.function.code;
    let request = match requested(alloc, Form::Raw, code, ask.context, ask.held) {
        Ok(request) => request,
        Err(Stop::Fault(code)) => return Err(NoRequest::Unused { function, code }),
        Err(Stop::NoMemory) => return Err(NoRequest::NoMemory),
    };
    match load(alloc, file, &function, request.decl, &kinds()) {
        Ok(loaded) => match joined(function, request, loaded) {
            Ok(request) => Ok(request),
            Err(AllocError) => Err(NoRequest::NoMemory),
        },
        Err(fault) => Err(NoRequest::Unloaded { function, fault }),
    }
}

// The request for what was loaded: the data is put after the context. It fails only where an allocation fails.
fn joined<'a>(
    function: DataFunction<'a>,
    request: Request,
    loaded: Loaded,
) -> Result<DataRequest<'a>, AllocError>
    ensures { IfOk result (IsJoined function.entry request.context.items loaded) }
{
    let Request {
        bytes: _,
        mut context,
        decl: _,
    } = request;
    let Loaded {
        bytes,
        data,
        decl,
        word,
    } = loaded;
    context.extend_from_slice(&data)?;
    Ok(DataRequest {
        function,
        request: Request {
            bytes,
            context,
            decl,
        },
        data,
        word,
    })
}

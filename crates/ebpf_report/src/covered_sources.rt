//! The lines of C of the programs of a script.

ghost use Rattle.std.specs.Prelude.{◌≡◌, None, map, slice_index_or, IfOk};
ghost use Rattle.std.specs.Option.{option_copied};
ghost use Rattle.ebpf_lines.specs.Sources.{HasFile, IsSourceIn};
ghost use Rattle.ebpf_reader.specs.ReadScripts.{named};
ghost use Rattle.ebpf_report.specs.CoveredLines.{AreSources};

use ebpf_lines::source::{ObjectFile, Source};
use ebpf_reader::script::Programs;
use std::alloc::{AllocError, Global};

/// The lines of C of each program, by an object file if there is one. It fails only if an allocation fails.
pub(crate) fn sources_of<'a>(
    alloc: Global,
    object: Option<ObjectFile<'a>>,
    programs: &Programs,
) -> Result<Vec<Option<Source<'a>>>, AllocError>
    requires { HasFile object }
    ensures { IfOk result (λ all. AreSources object.entry (map named programs.now.entries) all.items) }
{
    let mut sources = Vec::new(alloc);
    for (_, program) in programs.iter() {
        sources.push(source_in(alloc, object, &program.bytes)?)?;
    }
    Ok(sources)
}

// The lines of a program of these bytes.
fn source_in<'a>(
    alloc: Global,
    object: Option<ObjectFile<'a>>,
    code: &[u8],
) -> Result<Option<Source<'a>>, AllocError>
    requires { HasFile object }
    ensures { IfOk result (IsSourceIn object.entry code.now) }
{
    match object {
        Some(object) => object.source_of(alloc, code),
        None => Ok(None),
    }
}

/// The lines of the program of a number.
pub(crate) fn source_at<'s, 'a>(
    sources: &'s [Option<Source<'a>>],
    program: usize,
) -> Option<&'s Source<'a>>
    ensures { option_copied result ≡ slice_index_or sources.now program None }
{
    match sources.get(program) {
        Some(Some(source)) => Some(source),
        _ => None,
    }
}

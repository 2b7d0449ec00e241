//! Contexts of one program that are one after another.

ghost use Rattle.std.specs.Prelude.{◌≡◌, ◌≤◌, ◌+◌, ◌*◌, length};
ghost use Rattle.ebpf_host.specs.Contexts.{context_at, given_bytes};

use crate::program::Program;

/// The context with a number, from 0 on.
#[inline(always)]
pub fn context_at<'a>(program: &Program, contexts: &'a [u8], number: usize) -> &'a [u8]
    requires { (number + 1) * given_bytes program.now ≤ length contexts.now }
    ensures { result.now ≡ context_at program.now number contexts.now }
{
    let length = program.context() as usize;
    &contexts[number * length..][..length]
}

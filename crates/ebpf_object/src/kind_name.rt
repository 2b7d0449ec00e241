//! The kinds by name.

ghost use Rattle.std.specs.Prelude.{◌≡◌, ◌<◌, length};
ghost use Rattle.ebpf_machine.specs.Kinds.{known_kinds};
ghost use Rattle.ebpf_object.specs.KindName.{number_of};

/// A kind of object that the caches have.
#[derive(Clone, Copy)]
pub enum KindName {
    Cell,
    Record,
    Block,
}

/// The kind that has this number.
#[inline]
pub fn kind_named(number: u8) -> KindName
    requires { number < length known_kinds }
    ensures { number_of result ≡ number }
{
    match number {
        0 => KindName::Cell,
        1 => KindName::Record,
        2 => KindName::Block,
        _ => unreachable!(),
    }
}

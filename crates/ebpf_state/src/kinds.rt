//! The kinds of object that programs allocate.

ghost use Rattle.ebpf_state.specs.Kinds.{AreKinds};

/// A kind of object: its size in bytes, 1 to 4096, and the byte that fills a new one.
#[derive(Clone, Copy)]
pub struct KindRow {
    pub name: &'static str,
    pub size: u32,
    pub fill: u8,
}

/// How many kinds there are: one for each cache and each shelf.
pub const KINDS: usize = 3;

/// The kinds that the caches have, by number.
pub fn kinds() -> [KindRow; KINDS]
    ensures { AreKinds result }
{
    [
        KindRow {
            name: "cell",
            size: 16,
            fill: 0x00,
        },
        KindRow {
            name: "record",
            size: 64,
            fill: 0xff,
        },
        KindRow {
            name: "block",
            size: 512,
            fill: 0x5a,
        },
    ]
}

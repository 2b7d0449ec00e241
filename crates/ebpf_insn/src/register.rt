//! The eleven registers (RFC 9669, section 2.1).

ghost use Rattle.std.specs.Prelude.{◌≡◌, ◌≤◌};

/// A register. `R0` takes results, `R1` to `R5` take arguments and are lost at a call, `R6` to `R9` are kept over calls,
/// and `R10` is the read-only frame pointer (RFC 9669, section 2.1).
#[derive(Clone, Copy)]
pub enum Reg {
    R0,
    R1,
    R2,
    R3,
    R4,
    R5,
    R6,
    R7,
    R8,
    R9,
    R10,
}

impl Reg {
    ghost use Rattle.ebpf_insn.specs.Registers.{number_of, register_of};

    /// The register of a number, or `None` above 10, as a register nibble of a slot can hold.
    #[inline(always)]
    pub(crate) fn new(number: u8) -> Option<Reg>
        ensures { result ≡ register_of number }
    {
        match number {
            0 => Some(Reg::R0),
            1 => Some(Reg::R1),
            2 => Some(Reg::R2),
            3 => Some(Reg::R3),
            4 => Some(Reg::R4),
            5 => Some(Reg::R5),
            6 => Some(Reg::R6),
            7 => Some(Reg::R7),
            8 => Some(Reg::R8),
            9 => Some(Reg::R9),
            10 => Some(Reg::R10),
            _ => None,
        }
    }

    /// The register's number, as an index of a table of eleven.
    pub fn number(self) -> usize
        ensures value { result ≡ number_of self }
        ensures bound { result ≤ 10 }
    {
        self as usize
    }
}

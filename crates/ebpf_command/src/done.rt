//! How a command ends.

ghost use Rattle.std.specs.Prelude.{◌≡◌};
ghost use Rattle.ebpf_command.specs.Lines.{fault_name};

use std::alloc::{AllocError, AllocFailed};
use thiserror::Error;

/// How a command ended that wrote its whole text.
#[derive(Clone, Copy)]
pub enum Done {
    /// Everything was accepted and done.
    Clean,
    /// The text holds a refusal or a fault.
    Refused,
}

/// Why a command didn't write its whole text. The program writes these words after its name to standard error.
#[derive(Clone, Copy, Debug, Error)]
pub enum EngineFault {
    /// A read failed. Nothing was written.
    #[error("input")]
    Input,
    /// A write failed, or took nothing. What was written is a beginning of the text.
    #[error("output")]
    Output,
    /// An allocation failed. Nothing was written.
    #[error("no memory")]
    NoMemory,
}

/// Why an input or an option can't be used. Users see the code that begins each line.
#[derive(Clone, Copy)]
pub enum FaultCode {
    /// `S1`: the text has more than 1,048,576 bytes.
    InputTooLong,
    /// `S2`: a byte is none of tab, newline, carriage return and 0x20 to 0x7e.
    UnprintableByte,
    /// `S3`: the line has no shape of this command.
    UnknownLine,
    /// `S4`: a number isn't decimal, or is out of its range.
    BadNumber,
    /// `S5`: what should be hex isn't readable.
    BadHex,
    /// `S6`: the name isn't allowed, or is defined already.
    BadName,
    /// `S7`: the name isn't defined.
    UndefinedName,
    /// `S8`: there is an `arena` already.
    SecondArena,
    /// `S9`: the context of `run` doesn't have the declared length.
    WrongContextLength,
}

/// Why an input, an option or a line of a script is not read.
#[derive(Clone, Copy)]
pub enum Stop {
    /// It can't be used.
    Fault(FaultCode),
    /// An allocation failed.
    NoMemory,
}

impl FaultCode {
    // The code as it is written.
    pub(crate) fn name(self) -> &'static str
        ensures { result.now ≡ fault_name self }
    {
        match self {
            FaultCode::InputTooLong => "S1",
            FaultCode::UnprintableByte => "S2",
            FaultCode::UnknownLine => "S3",
            FaultCode::BadNumber => "S4",
            FaultCode::BadHex => "S5",
            FaultCode::BadName => "S6",
            FaultCode::UndefinedName => "S7",
            FaultCode::SecondArena => "S8",
            FaultCode::WrongContextLength => "S9",
        }
    }
}

impl<T: Drop> From<AllocFailed<T>> for EngineFault {
    ghost use Rattle.ebpf_command.specs.declared.done.EngineFault.TheVariants.{NoMemory};

    ghost from_gives = { λ _ e. e ≡ NoMemory };

    fn from(_e: AllocFailed<T>) -> EngineFault {
        EngineFault::NoMemory
    }
}

impl From<AllocError> for EngineFault {
    ghost use Rattle.ebpf_command.specs.declared.done.EngineFault.TheVariants.{NoMemory};

    ghost from_gives = { λ _ e. e ≡ NoMemory };

    fn from(_e: AllocError) -> EngineFault {
        EngineFault::NoMemory
    }
}

impl From<AllocError> for Stop {
    ghost use Rattle.ebpf_command.specs.declared.done.Stop.TheVariants.{NoMemory};

    ghost from_gives = { λ _ e. e ≡ NoMemory };

    fn from(_e: AllocError) -> Stop {
        Stop::NoMemory
    }
}

impl<T: Drop> From<AllocFailed<T>> for Stop {
    ghost use Rattle.ebpf_command.specs.declared.done.Stop.TheVariants.{NoMemory};

    ghost from_gives = { λ _ e. e ≡ NoMemory };

    fn from(_e: AllocFailed<T>) -> Stop {
        Stop::NoMemory
    }
}

//! The codes of refusals, as they are written.

ghost use Rattle.std.specs.Prelude.{◌≡◌};
ghost use Rattle.ebpf_command.specs.Codes.{decode_name, flow_name, verify_name, refusal_name};

use ebpf_flow::fault::FlowCode;
use ebpf_insn::fault::DecodeCode;
use ebpf_verify::fault::VerifyCode;

/// Why a program is refused, by the stage that refuses it.
#[derive(Clone, Copy)]
pub enum RefusalCode {
    /// The bytes are no program.
    Decode(DecodeCode),
    /// The flow is at fault.
    Flow(FlowCode),
    /// A run may not keep within what it may touch.
    Verify(VerifyCode),
}

impl RefusalCode {
    /// The code as it is written.
    pub fn name(self) -> &'static str
        ensures { result.now ≡ refusal_name self }
    {
        match self {
            RefusalCode::Decode(code) => decode_name(code),
            RefusalCode::Flow(code) => flow_name(code),
            RefusalCode::Verify(code) => verify_name(code),
        }
    }
}

// The code of bytes that are no program.
fn decode_name(code: DecodeCode) -> &'static str
    ensures { result.now ≡ decode_name code }
{
    match code {
        DecodeCode::WrongLength => "I1",
        DecodeCode::UnknownOpcode => "I2",
        DecodeCode::UnknownRegister => "I3",
        DecodeCode::UnusedFieldSet => "I4",
        DecodeCode::MissingSecondSlot => "I5",
        DecodeCode::BadSecondSlot => "I6",
        DecodeCode::UndefinedField => "I7",
        DecodeCode::UnsupportedForm => "I8",
        DecodeCode::ProgramTooLong => "I9",
    }
}

// The code of a program whose flow is refused.
fn flow_name(code: FlowCode) -> &'static str
    ensures { result.now ≡ flow_name code }
{
    match code {
        FlowCode::JumpOutside => "F1",
        FlowCode::JumpIntoWide => "F2",
        FlowCode::JumpBackward => "F3",
        FlowCode::FallsOffEnd => "F4",
        FlowCode::Unreachable => "F5",
    }
}

// The code of a program that the verifier refuses.
fn verify_name(code: VerifyCode) -> &'static str
    ensures { result.now ≡ verify_name code }
{
    match code {
        VerifyCode::UnsetRegister => "V1",
        VerifyCode::FramePointerWritten => "V2",
        VerifyCode::PointerMisused => "V3",
        VerifyCode::MovedTooFar => "V4",
        VerifyCode::PointerCompared => "V5",
        VerifyCode::OutsideStack => "V6",
        VerifyCode::UnsetStack => "V7",
        VerifyCode::OutsideContext => "V8",
        VerifyCode::ContextWritten => "V9",
        VerifyCode::OutsideObject => "V10",
        VerifyCode::UntestedAnswer => "V11",
        VerifyCode::PartialPointer => "V12",
        VerifyCode::NumberAsAddress => "V13",
        VerifyCode::UnknownHelper => "V14",
        VerifyCode::WrongArgument => "V15",
        VerifyCode::TooManyHeld => "V16",
        VerifyCode::HeldAtExit => "V17",
        VerifyCode::NoNumberReturned => "V18",
        VerifyCode::PathsDiffer => "V19",
    }
}

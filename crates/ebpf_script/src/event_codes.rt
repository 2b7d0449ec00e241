//! The codes of events that aren't legal, as they are written.

ghost use Rattle.std.specs.Prelude.{◌≡◌};
ghost use Rattle.ebpf_script.specs.EventCodes.{apply_name};

use ebpf_core::fault::ApplyCode;

/// The code of an event that isn't legal.
pub(crate) fn apply_name(code: ApplyCode) -> &'static str
    ensures { result.now ≡ apply_name code }
{
    match code {
        ApplyCode::NoSuchRun => "E1",
        ApplyCode::RunEnded => "E2",
        ApplyCode::SlotNotHome => "E3",
        ApplyCode::SlotOfAnotherKind => "E4",
        ApplyCode::AnswerUnasked => "E5",
        ApplyCode::AnswerMissing => "E6",
        ApplyCode::SlotInLedger => "E7",
        ApplyCode::SlotNotReapable => "E8",
        ApplyCode::NoSuchProgramOrKind => "E9",
        ApplyCode::WrongContext => "E10",
    }
}

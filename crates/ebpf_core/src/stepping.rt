//! One instruction of a run: whether its answer is legal, the object that it is lent, and the one that it frees.

ghost use Rattle.std.specs.Prelude.{◌≡◌, IfNone, option_copied, slice_get};
ghost use Rattle.ebpf_core.specs.Shown.{IsTended};
ghost use Rattle.ebpf_core.specs.Stepping.{slot_code, start_code, code_by, CanLend, IsStepped};

use crate::event::Answer;
use crate::fault::ApplyCode;
use crate::passing::Passing;
use crate::place::Place;
use ebpf_machine::run::Run;
use ebpf_shelves::object::Object;
use ebpf_shelves::shelves::Shelves;
use ebpf_verify::verified::Verified;
use std::collections::BTreeMap;

/// Why a run of the program of this number can't start on a context of this length.
pub(crate) fn start_fault(programs: &[Verified], program: usize, length: usize) -> Option<ApplyCode>
    ensures { result ≡ start_code (slice_get programs.now program) length }
{
    if program >= programs.len() {
        return Some(ApplyCode::NoSuchProgramOrKind);
    }
    if length == programs[program].decl().context as usize {
        None
    } else {
        Some(ApplyCode::WrongContext)
    }
}

/// Why an answer isn't legal for a run that wants this kind, or nothing.
pub(crate) fn answer_fault(
    places: &BTreeMap<u32, Place>,
    answer: Answer,
    wants: Option<u8>,
) -> Option<ApplyCode>
    ensures { result ≡ code_by places.now.entries answer wants }
{
    match (answer, wants) {
        (Answer::Slot(slot), _) => slot_fault(places.get(&slot), wants),
        (Answer::Null, None) => Some(ApplyCode::AnswerUnasked),
        (Answer::Absent, Some(_)) => Some(ApplyCode::AnswerMissing),
        _ => None,
    }
}

// Why a slot at this place isn't a legal answer.
fn slot_fault(place: Option<&Place>, wants: Option<u8>) -> Option<ApplyCode>
    ensures { result ≡ slot_code (option_copied place.entry) wants }
{
    match (place, wants) {
        (Some(Place::Home(_)), None) => Some(ApplyCode::AnswerUnasked),
        (Some(Place::Home(object)), Some(kind)) => {
            if object.kind == kind {
                None
            } else {
                Some(ApplyCode::SlotOfAnotherKind)
            }
        }
        _ => Some(ApplyCode::SlotNotHome),
    }
}

/// Does one instruction of a run that is lent this object, or none, and reaches these shelves. The answer is the object that it freed,
/// and what is on the shelves then.
pub(crate) fn step_in(
    run: &mut Run<Object>,
    lent: Option<Object>,
    shelves: Shelves,
) -> (Option<Object>, Shelves)
    requires tended { IsTended run.old }
    requires lends { CanLend lent shelves run.old }
    ensures stepped { IfNone run.old.exit (IsStepped lent result.0 shelves result.1 run.old run.new) }
    ensures tended { IsTended run.new }
{
    let mut passing = Passing::new(lent, shelves);
    let _ = run.step(&mut passing);
    passing.into_parts()
}

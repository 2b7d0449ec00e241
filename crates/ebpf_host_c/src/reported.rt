//! What C is given: why bytes are refused, and what a run did.

ghost use Rattle.std.specs.Prelude.{◌≡◌, ◌<◌, ◌≤◌, ◌++◌, ◌∷◌, [], IfSome, OnOk, OnErr, filter, is_some, length, string_bytes, unwrap_or};
ghost use Rattle.ebpf_machine.specs.Whole.{is_granted, is_null, is_fetched};
ghost use Rattle.ebpf_host_c.specs.Objects.{IsFaultReported, IsLineIn, IsLineOfFault, fault_slot};
ghost use Rattle.ebpf_host.specs.Copying.{copied};
ghost use Rattle.ebpf_host_c.specs.Reported.{IsReported, IsReportedWith, IsWrittenAt, is_empty, line_under};

use ebpf_host::copying::copy;
use ebpf_host::refusal::Refusal;
use ebpf_machine::ended::Ended;
use ebpf_machine::report::Reply;
use ebpf_object_file::holding_line::{HoldingLine, holding_line};
use ebpf_object_file::object_fault::ObjectFault;
use ebpf_object_file::outside::Place;
use std::alloc::{AllocError, Global};

/// Why bytes are refused.
#[repr(C)]
#[derive(Drop)]
pub struct Refused {
    /// The letter of the stage that refuses them, `I`, `F` or `V`, or `O` for an object file, and the digits after it; zero where there
    /// is none.
    pub code: [u8; 4],
    /// The slot that is at fault, as [`Refusal`] has it, or 0 where the file is, or a link that fails at none.
    pub slot: u32,
    /// How many bytes the sentence and the line of C under it have, without the zero after them.
    pub length: u64,
}

/// What a run did.
#[repr(C)]
#[derive(Drop)]
pub struct Reported {
    /// The number that it returned, 0 where it was given up.
    pub exit: u64,
    /// How many instructions it did.
    pub executed: u64,
    /// The most objects that it held at one time.
    pub peak: u64,
    /// How many numbers it added to its output.
    pub outputs: u64,
    /// How many calls of `new` were granted an object.
    pub granted: u64,
    /// How many calls of `new` were answered null.
    pub refused: u64,
    /// How many calls of `swap` found an object on the shelf.
    pub fetched: u64,
    /// How many calls of `swap` found nothing there.
    pub missed: u64,
    /// Whether it exited within the limit.
    pub exited: bool,
}

/// Where in an object file a function is.
#[derive(Clone, Copy)]
pub struct InFile<'a> {
    pub file: &'a [u8],
    pub place: Place,
}

// Copies a sentence and a zero after it, as far as there is room.
fn copy_ended(sentence: &[u8], text: &mut [u8])
    ensures { text.new ≡ copied (sentence.now ++ 0 ∷ []) text.old }
{
    copy(sentence, text);
    if sentence.len() < text.len() {
        text[sentence.len()] = 0;
    }
}

/// Tells a code, a slot and a sentence.
pub(crate) fn report_as(
    code: &str,
    slot: u32,
    sentence: &[u8],
    text: &mut [u8],
    refused: &mut Refused,
)
    ensures { IsReported code.now slot sentence.now text.old text.new refused.new }
{
    let mut letters = [0; 4];
    copy(code.as_bytes(), &mut letters);
    copy_ended(sentence, text);
    *refused = Refused {
        code: letters,
        slot,
        length: sentence.len() as u64,
    };
}

// The slot of a fault.
fn slot_of(fault: ObjectFault<'_>) -> u32
    ensures { result ≡ fault_slot fault.entry }
{
    match fault {
        ObjectFault::Outside(outside) => {
            if outside.slot < 4_294_967_296 {
                outside.slot as u32
            } else {
                u32::MAX
            }
        }
        _ => 0,
    }
}

/// Adds a line of C to a sentence, where there is one.
pub(crate) fn add_line(
    sentence: &mut String,
    holding: Option<HoldingLine<'_>>,
) -> Result<(), AllocError>
    ensures { OnOk result (string_bytes sentence.new ≡ string_bytes sentence.old ++ line_under holding.entry) }
{
    match holding {
        None => Ok(()),
        Some(holding) => write!(sentence, "{holding}"),
    }
}

/// The line of C that holds at a slot, if the slots are a function's.
pub(crate) fn line_in<'a>(source: Option<InFile<'a>>, slot: Option<u16>) -> Option<HoldingLine<'a>>
    requires { IfSome source (λ f. f.place.from ≤ length f.file.now) }
    ensures { IsLineIn source.entry slot result }
{
    match (source, slot) {
        (Some(function), Some(slot)) => {
            let at = function.place.from + 8 * u64::from(slot);
            holding_line(function.file, function.place, at)
        }
        _ => None,
    }
}

/// Tells a refusal of slots, which may be a function's: with the line of C then that holds at its slot. It fails only where an allocation
/// fails.
pub(crate) fn report_refusal(
    refusal: Refusal,
    source: Option<InFile<'_>>,
    text: &mut [u8],
    refused: &mut Refused,
) -> Result<(), AllocError>
    requires { IfSome source (λ f. f.place.from ≤ length f.file.now) }
    ensures reported { OnOk result (IsReportedWith refusal (IsLineIn source.entry) text.old text.new refused.new) }
    ensures unchanged { OnErr result ((text.new ≡ text.old) × (refused.new ≡ refused.old)) }
{
    let Refusal {
        code,
        slot,
        given,
        mut sentence,
    } = refusal;
    add_line(&mut sentence, line_in(source, given))?;
    report_as(
        code.name(),
        u32::from(slot),
        sentence.as_bytes(),
        text,
        refused,
    );
    Ok(())
}

// The line of C of a fault: that of the slot that needs another part of the file.
fn line_of_fault<'a>(file: &'a [u8], fault: ObjectFault<'_>) -> Option<HoldingLine<'a>>
    ensures { IsLineOfFault file.now fault.entry result }
{
    match fault {
        ObjectFault::Outside(outside) => holding_line(file, outside.place, outside.at),
        _ => None,
    }
}

/// Tells a fault of an object file, with the line of C of its slot. It fails only where an allocation fails.
pub(crate) fn report_fault(
    alloc: Global,
    file: &[u8],
    fault: ObjectFault<'_>,
    text: &mut [u8],
    refused: &mut Refused,
) -> Result<(), AllocError>
    ensures reported { OnOk result (IsFaultReported file.now fault.entry text.old text.new refused.new) }
    ensures unchanged { OnErr result ((text.new ≡ text.old) × (refused.new ≡ refused.old)) }
{
    let mut line = format!(in alloc; "  {fault}\n")?;
    add_line(&mut line, line_of_fault(file, fault))?;
    report_as(fault.code(), slot_of(fault), line.as_bytes(), text, refused);
    Ok(())
}

// How many replies there are of each kind.
#[derive(Clone, Copy)]
struct Counts {
    granted: usize,
    refused: usize,
    fetched: usize,
    missed: usize,
}

fn counts_of(replies: &[Reply]) -> Counts
    ensures granted { result.granted ≡ length (filter is_granted replies.now) }
    ensures refused { result.refused ≡ length (filter is_null replies.now) }
    ensures fetched { result.fetched ≡ length (filter is_fetched replies.now) }
    ensures missed { result.missed ≡ length (filter is_empty replies.now) }
{
    let (mut granted, mut refused, mut fetched, mut missed) = (0, 0, 0, 0);
    for reply in replies {
        match reply {
            Reply::Granted => granted += 1,
            Reply::Null => refused += 1,
            Reply::Shelf => fetched += 1,
            Reply::Empty => missed += 1,
        }
    }
    Counts {
        granted,
        refused,
        fetched,
        missed,
    }
}

/// Tells a report as the one with a number.
pub(crate) fn write_at<H>(
    done: &Ended<H>,
    number: usize,
    output: &mut [u64],
    reports: &mut [Reported],
)
    requires { number < length reports.old }
    ensures { IsWrittenAt number done.now output.old output.new reports.old reports.new }
{
    write_report(done, output, &mut reports[number]);
}

/// Tells a report.
pub(crate) fn write_report<H>(done: &Ended<H>, output: &mut [u64], report: &mut Reported)
    ensures numbers { output.new ≡ copied done.now.output output.old }
    ensures exited { report.new.exited ≡ is_some done.now.exit }
    ensures exit { report.new.exit ≡ unwrap_or done.now.exit 0 }
    ensures executed { report.new.executed ≡ done.now.executed }
    ensures peak { report.new.peak ≡ done.now.peak }
    ensures outputs { report.new.outputs ≡ length done.now.output }
    ensures granted { report.new.granted ≡ length (filter is_granted done.now.answers) }
    ensures refused { report.new.refused ≡ length (filter is_null done.now.answers) }
    ensures fetched { report.new.fetched ≡ length (filter is_fetched done.now.answers) }
    ensures missed { report.new.missed ≡ length (filter is_empty done.now.answers) }
{
    let numbers = done.output();
    if !numbers.is_empty() {
        copy(numbers, output);
    }
    let counts = counts_of(done.answers());
    let exit = done.exit();
    *report = Reported {
        exit: exit.unwrap_or(0),
        executed: done.executed(),
        peak: done.peak(),
        outputs: numbers.len() as u64,
        granted: counts.granted as u64,
        refused: counts.refused as u64,
        fetched: counts.fetched as u64,
        missed: counts.missed as u64,
        exited: exit.is_some(),
    };
}

//! Programs that are loaded, and their runs.

ghost use Rattle.std.specs.Prelude.{◌≡◌};

use ebpf_host::machine::Machine;
use ebpf_host::program::Program;
use ebpf_host::refusal::LoadFault;
use ebpf_host::shelving::PutFault;
use ebpf_machine::report::Report;
use ebpf_object::KindName;
use std::alloc::{AllocError, Global};
use std::process::Abort;

// Takes a cell, writes 5 to it, reads it, gives it back and returns what it read. Where it gets none, it returns 0.
const CELL: &str = "\
b701000000000000850000000100000015000500000000007a000000050000007906000000000000bf01000000000000\
8500000002000000bf600000000000009500000000000000";

// Takes a block, gives it back and returns 1. Where it gets none, it returns 0.
const BLOCK: &str = "\
b70100000200000085000000010000001500030000000000bf010000000000008500000002000000b700000001000000\
9500000000000000";

// Takes a cell, then a block, and gives both back. It returns 3.
const BOTH: &str = "\
b70100000000000085000000010000001500090000000000bf07000000000000b7010000020000008500000001000000\
1500020000000000bf010000000000008500000002000000bf710000000000008500000002000000b700000003000000\
9500000000000000";

// Leaves a record with the byte of the context on the shelf of records, and gives back what was there.
const LEAVE: &str = "\
7116000000000000b701000001000000850000000100000015000800000000007b60000000000000b701000001000000\
bf0200000000000085000000040000001500020000000000bf010000000000008500000002000000b700000000000000\
9500000000000000";

// Takes what is on the shelf of records, and adds its number to the output.
const FETCH: &str = "\
b701000001000000b70200000000000085000000040000001500050000000000bf060000000000007961000000000000\
8500000003000000bf610000000000008500000002000000b7000000000000009500000000000000";

// Returns four bytes of the context.
const READ: &str = "61100000000000009500000000000000";

// Return the eight bytes of a context, and the last two with their sign.
const READ_WORD: &str = "79100000000000009500000000000000";

const READ_SIGNED: &str = "89100600000000009500000000000000";

// Counts down from 3 in a loop, and returns 0.
const COUNT: &str = "b70000000300000017000000010000005500feff000000009500000000000000";

fn bytes_of(rt: &impl Abort, alloc: Global, digits: &str) -> Vec<u8> {
    hex::decode(alloc, digits.as_bytes()).expect(rt, "these are no bytes")
}

// A program that is accepted.
fn loaded(rt: &impl Abort, alloc: Global, digits: &str, context: u32, held: u32) -> Program
    ensures { result.verified.decl.context ≡ context }
{
    let bytes = bytes_of(rt, alloc, digits);
    match Program::load(alloc, &bytes, context, held) {
        Ok(program) => program,
        Err(_) => panic!(rt; "the program is not loaded"),
    }
}

// A program with loops that are unrolled.
fn unrolled(rt: &impl Abort, alloc: Global, digits: &str) -> Program {
    let bytes = bytes_of(rt, alloc, digits);
    match Program::load_unrolled(alloc, &bytes, 0, 0) {
        Ok(program) => program,
        Err(_) => panic!(rt; "the program is not loaded"),
    }
}

fn machine_of(rt: &impl Abort, alloc: Global, pages: u32) -> Machine {
    match Machine::new(alloc, pages) {
        Ok(machine) => machine,
        Err(_) => panic!(rt; "there is no machine"),
    }
}

// The lines of a report.
fn lines_of(alloc: Global, report: &Report) -> Result<String, AllocError> {
    let mut text = String::new(alloc);
    for number in &report.output.numbers {
        write!(text, "emit {number} ")?;
    }
    match report.exit {
        Some(exit) => write!(text, "exit {exit} ")?,
        None => write!(text, "given up ")?,
    }
    write!(text, "executed {} peak {}", report.executed, report.peak)?;
    Ok(text)
}

// That a run of a program on a context is reported so.
fn runs(
    rt: &impl Abort,
    alloc: Global,
    machine: &mut Machine,
    program: &Program,
    context: &str,
    limit: u64,
    expected: &str,
) {
    let context = bytes_of(rt, alloc, context);
    let told = match machine.run(program, &context, limit) {
        Ok(report) => lines_of(alloc, &report).expect(rt, "no memory"),
        Err(fault) => format!(in alloc; "{fault}").expect(rt, "no memory"),
    };
    assert!(rt; told.as_str() == expected, "{expected}: {told}");
}

#[test]
fn a_program_runs_any_number_of_times(rt: HostRuntime) {
    let alloc = rt.alloc();
    let mut machine = machine_of(&rt, alloc, 1);
    let cell = loaded(&rt, alloc, CELL, 0, 1);
    for _run in 0..3 {
        runs(
            &rt,
            alloc,
            &mut machine,
            &cell,
            "",
            100,
            "exit 5 executed 9 peak 1",
        );
    }
    // It is given up with the cell in its hands, which the next run may take.
    runs(
        &rt,
        alloc,
        &mut machine,
        &cell,
        "",
        4,
        "given up executed 4 peak 1",
    );
    runs(
        &rt,
        alloc,
        &mut machine,
        &cell,
        "",
        9,
        "exit 5 executed 9 peak 1",
    );
    runs(
        &rt,
        alloc,
        &mut machine,
        &cell,
        "00",
        100,
        "the context doesn't have the declared length",
    );
}

#[test]
fn a_page_serves_another_kind_once_it_is_reaped(rt: HostRuntime) {
    let alloc = rt.alloc();
    let mut machine = machine_of(&rt, alloc, 1);
    let cell = loaded(&rt, alloc, CELL, 0, 1);
    let block = loaded(&rt, alloc, BLOCK, 0, 1);
    runs(
        &rt,
        alloc,
        &mut machine,
        &cell,
        "",
        100,
        "exit 5 executed 9 peak 1",
    );
    runs(
        &rt,
        alloc,
        &mut machine,
        &block,
        "",
        100,
        "exit 0 executed 4 peak 0",
    );
    machine.reap();
    runs(
        &rt,
        alloc,
        &mut machine,
        &block,
        "",
        100,
        "exit 1 executed 7 peak 1",
    );
    let both = loaded(&rt, alloc, BOTH, 0, 2);
    let mut wide = machine_of(&rt, alloc, 2);
    runs(
        &rt,
        alloc,
        &mut wide,
        &both,
        "",
        100,
        "exit 3 executed 13 peak 2",
    );
}

#[test]
fn what_a_run_leaves_on_a_shelf_is_there_for_the_next(rt: HostRuntime) {
    let alloc = rt.alloc();
    let mut machine = machine_of(&rt, alloc, 1);
    let leave = loaded(&rt, alloc, LEAVE, 1, 1);
    let fetch = loaded(&rt, alloc, FETCH, 0, 1);
    runs(
        &rt,
        alloc,
        &mut machine,
        &fetch,
        "",
        100,
        "exit 0 executed 6 peak 0",
    );
    runs(
        &rt,
        alloc,
        &mut machine,
        &leave,
        "2a",
        100,
        "exit 0 executed 11 peak 1",
    );
    machine.reap();
    runs(
        &rt,
        alloc,
        &mut machine,
        &fetch,
        "",
        100,
        "emit 42 exit 0 executed 11 peak 1",
    );
}

#[test]
fn what_is_refused_is_told_why(rt: HostRuntime) {
    let alloc = rt.alloc();
    let bytes = bytes_of(&rt, alloc, READ);
    assert!(rt;
        matches!(
            Program::load(alloc, &bytes, 4097, 0),
            Err(LoadFault::Declaration)
        )
    );
    match Program::load(alloc, &bytes, 3, 0) {
        Err(LoadFault::Refused(refusal)) => {
            assert!(rt; refusal.code.name() == "V8" && refusal.slot == 0);
            assert!(rt; refusal.sentence.as_str().contains("reads 4 bytes"));
        }
        _ => panic!(rt; "it is not refused"),
    }
    assert!(rt; loaded(&rt, alloc, READ, 4, 0).context() == 4);
}

#[test]
fn a_loop_is_unrolled(rt: HostRuntime) {
    let alloc = rt.alloc();
    let mut machine = machine_of(&rt, alloc, 1);
    let count = unrolled(&rt, alloc, COUNT);
    runs(
        &rt,
        alloc,
        &mut machine,
        &count,
        "",
        100,
        "exit 0 executed 8 peak 0",
    );
}

#[test]
fn the_data_of_a_program_comes_after_the_context(rt: HostRuntime) {
    let alloc = rt.alloc();
    let mut machine = machine_of(&rt, alloc, 1);
    let after = Vec::from_array(alloc, [1, 0, 0]).expect(&rt, "no memory");
    let read = loaded(&rt, alloc, READ, 4, 0).with_data(after);
    assert!(rt; read.context() == 1 && read.data().len() == 3 && read.verified().len() == 2);
    runs(
        &rt,
        alloc,
        &mut machine,
        &read,
        "07",
        100,
        "exit 263 executed 2 peak 0",
    );
    runs(
        &rt,
        alloc,
        &mut machine,
        &read,
        "07010000",
        100,
        "the context doesn't have the declared length",
    );
}

#[test]
fn a_load_may_lie_on_both_sides_of_the_end_of_the_context(rt: HostRuntime) {
    let alloc = rt.alloc();
    let mut machine = machine_of(&rt, alloc, 1);
    for (context, after) in [
        ("", "0102030405060780"),
        ("01", "02030405060780"),
        ("01020304", "05060780"),
        ("01020304050607", "80"),
        ("0102030405060780", ""),
    ] {
        for (program, expected) in [
            (READ_WORD, "exit 9225348980303659521 executed 2 peak 0"),
            (READ_SIGNED, "exit 18446744073709518855 executed 2 peak 0"),
        ] {
            let after = bytes_of(&rt, alloc, after);
            assert!(rt; after.len() <= 8);
            let read = loaded(&rt, alloc, program, 8, 0).with_data(after);
            runs(&rt, alloc, &mut machine, &read, context, 100, expected);
        }
    }
}

#[test]
fn a_host_and_programs_leave_objects_for_each_other(rt: HostRuntime) {
    let alloc = rt.alloc();
    let mut machine = machine_of(&rt, alloc, 1);
    let mut room = [1; 10];
    assert!(rt; !machine.take(KindName::Record, &mut room) && room[0] == 1);
    let replaced = machine.put(KindName::Record, &[7, 0, 0, 0, 0, 0, 0, 0]);
    assert!(rt; matches!(replaced, Ok(false)));
    let fetch = loaded(&rt, alloc, FETCH, 0, 1);
    runs(
        &rt,
        alloc,
        &mut machine,
        &fetch,
        "",
        100,
        "emit 7 exit 0 executed 11 peak 1",
    );
    let leave = loaded(&rt, alloc, LEAVE, 1, 1);
    runs(
        &rt,
        alloc,
        &mut machine,
        &leave,
        "2a",
        100,
        "exit 0 executed 11 peak 1",
    );
    assert!(rt; machine.take(KindName::Record, &mut room));
    assert!(rt; room[0] == 42 && room[1] == 0 && room[8] == 255 && room[9] == 255);
    let long = machine.put(KindName::Cell, &[0; 17]);
    assert!(rt; matches!(long, Err(PutFault::TooLong)));
}

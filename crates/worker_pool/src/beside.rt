//! Work beside other work, in a thread of its own.
//!
//! `std::thread::join_mut` does one after the other where it can't start a thread. Here what asks for a thread is left undone then.

ghost use Rattle.std.specs.Prelude.{◌≡◌};
ghost use denote.Param.Send.{IsSync};

use std::sync::Wait;
use std::thread;
use std::thread::Threads;

/// Work that may be left undone. Nothing is known of what it does.
pub(crate) trait Errand {
    fn run(&self);
}

// Work that is done here, and what is known of it then. A closure of a scope can't say what it left in what it was lent.
trait Task {
    type Output;

    ghost can_run: { Self → Type 0 };

    ghost run_gives: { Self → Self.Output → Type 0 };

    fn run(self) -> Self::Output
        requires { can_run self }
        ensures { run_gives self result };
}

// A closure that is lent, so that what it leaves in its captures is known.
#[derive(Drop)]
struct Lent<'f, F> {
    f: &'f mut F,
}

impl<'f, F: FnMut() -> A, A> Task for Lent<'f, F> {
    type Output = (&'f mut F, A);

    ghost can_run = { λ t. F.pre t.f.now };

    ghost run_gives = { λ t r. (r.0.ghost_name ≡ t.f.ghost_name) × F.step t.f.now r.1 r.0.now };

    fn run(self) -> (&'f mut F, A) {
        let Lent { f } = self;
        let a = f();
        (f, a)
    }
}

/// Calls `f` here, and does the errand in a thread beside it, or not at all where that can't be started. Returns when both are done.
pub(crate) fn beside<R: Threads + Wait, E: Errand + Sync, F: FnMut() -> A, A>(
    rt: &R,
    errand: &E,
    f: &mut F,
) -> A
    requires { F.pre f.old }
    ensures { F.step f.old result f.new }
{
    let (f, a) = run_beside(rt, errand, Lent { f });
    take_back(f);
    a
}

// Does a task here, with the errand beside it.
fn run_beside<R: Threads + Wait, E: Errand + Sync, T: Task<Output = A> + Drop, A>(
    rt: &R,
    errand: &E,
    task: T,
) -> A
    requires { T.can_run task }
    ensures { T.run_gives task result }
{
    thread::scope(
        thread::scope_env(),
        rt,
        move |scope| -> A
            requires { IsSync E.row × T.can_run task }
            ensures { T.run_gives task result }
        {
            drop(scope.spawn(move || errand.run()));
            task.run()
        },
    )
}

// Does nothing, but its use of what came back ties that to what was lent.
fn take_back<T>(x: &mut T)
    ensures { x.new ≡ x.old }
{}

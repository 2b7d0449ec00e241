//! Who tells how many lines are written.

ghost use Rattle.std.specs.Prelude.{◌≡◌, ◌<◌, ◌*◌, ◌/◌};

use crate::counted::Listener;
use std::io::Eprint;
use std::rt::Clock;
use std::time::Instant;

// How many milliseconds there are at least from one message to the next.
const PAUSE: u128 = 1_000;

/// Tells on standard error, about once a second, how many lines are written, and how many a second since it told last.
///
/// On a terminal each message takes the place of the one before. Where the clock doesn't tell the time, there is none.
#[derive(Drop)]
pub struct Teller<'a, R> {
    rt: &'a R,
    is_terminal: bool,
    lines: u64,
    // When it told last, or began, and how many lines were written by then.
    since: Option<Instant>,
    told: u64,
}

impl<'a, R: Clock + Eprint> Teller<'a, R> {
    /// One who begins now.
    pub fn start(rt: &'a R, is_terminal: bool) -> Teller<'a, R> {
        Teller {
            rt,
            is_terminal,
            lines: 0,
            since: Instant::now(rt).ok(),
            told: 0,
        }
    }

    /// Ends the line of the last message on a terminal, if there was one.
    pub fn end(self) {
        if self.is_terminal && self.told > 0 {
            let _ = eprintln!(self.rt; "");
        }
    }

    // Nobody is left to tell where standard error is closed.
    fn tell(&self, rate: u128) {
        let lines = self.lines;
        let _ = if self.is_terminal {
            eprint!(self.rt; "\r{lines} lines, {rate} a second\x1b[K")
        } else {
            eprintln!(self.rt; "{lines} lines, {rate} a second")
        };
    }
}

impl<'a, R: Clock + Eprint> Listener for Teller<'a, R> {
    fn wrote(&mut self, lines: u64) {
        self.lines = self.lines.saturating_add(lines);
        let (Some(since), Ok(now)) = (self.since, Instant::now(self.rt)) else {
            return;
        };
        let millis = now.duration_since(since).as_millis();
        if millis >= PAUSE {
            self.tell(rate_of(self.lines.saturating_sub(self.told), millis));
            self.since = Some(now);
            self.told = self.lines;
        }
    }
}

/// How many lines that is a second, rounded down.
pub fn rate_of(lines: u64, millis: u128) -> u128
    requires { 0 < millis }
    ensures { result ≡ lines * 1000 / millis }
{
    u128::from(lines) * 1_000 / millis
}

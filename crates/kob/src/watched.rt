//! Standard output while a text is played, and how far it is on standard error.

ghost use Rattle.std.specs.Prelude.{◌≡◌, None, false};

use std::io::{self, Write};
use std::rt::Clock;
use std::time::{Duration, Instant};

/// The seconds after which work is reported, and then again.
const PATIENCE: u64 = 2;

/// Standard output, the name of the text that is played, and how many bytes of answers were written.
#[derive(Drop)]
pub struct ReportedOutput<'a, R> {
    rt: &'a R,
    pub name: &'a str,
    pub bytes: u64,
    /// When the playing began or was last reported; none if it is not to be reported.
    pub reported: Option<Instant>,
}

impl<'a, R: Clock> ReportedOutput<'a, R> {
    /// Standard output for the answers of a text, which are reported if `is_watched`.
    pub fn new(rt: &'a R, name: &'a str, is_watched: bool) -> ReportedOutput<'a, R>
        ensures name { result.name ≡ name.entry }
        ensures bytes { result.bytes ≡ 0 }
        ensures reported { is_watched ≡ false → result.reported ≡ None }
    {
        let reported = if is_watched {
            Instant::now(rt).ok()
        } else {
            None
        };
        ReportedOutput {
            rt,
            name,
            bytes: 0,
            reported,
        }
    }
}

impl<R: Clock + Eprint> ReportedOutput<'_, R> {
    /// Counts what is written, and reports after two seconds.
    fn count(&mut self, written: &[u8]) {
        self.bytes = self.bytes.saturating_add(written.len() as u64);
        if let Some(since) = self.reported {
            if let Ok(now) = Instant::now(self.rt) {
                if now.duration_since(since) >= Duration::from_secs(PATIENCE) {
                    self.report();
                    self.reported = Some(now);
                }
            }
        }
    }

    fn report(&self) {
        let name = self.name;
        let bytes = self.bytes;
        let _ = eprintln!(self.rt; "kob: {name}: playing, {bytes} bytes of answers so far");
    }
}

impl<R: Clock + Print + Eprint> Write for ReportedOutput<'_, R> {
    fn write(&mut self, buf: &[u8]) -> io::Result<usize> {
        self.count(buf);
        io::writer(self.rt).write(buf)
    }

    fn flush(&mut self) -> io::Result<()> {
        Ok(())
    }

    fn write_all(&mut self, buf: &[u8]) -> io::Result<()> {
        self.count(buf);
        io::writer(self.rt).write_all(buf)
    }
}

//! The words that a shell passes to a command.

ghost use Rattle.std.specs.Prelude.{◌≡◌, OnOk, IfOk};
ghost use Rattle.kob_policy_text.specs.Shell as seen;
ghost use Rattle.kob_policy_text.specs.Shell.{no_words};
ghost use Rattle.kob_policy_text.specs.Shell.{shell_words, with_byte, with_end};
ghost use Rattle.kob_policy_text.specs.Shell.{with_quoting, with_shell_byte};
ghost use Rattle.kob_policy_text.specs.Joined.{quoting_after};
ghost use Rattle.kob_script.specs.Words.{GivesSeen};

use kob_names::Bytes;
use kob_script::{FaultKind, LineError};
use std::alloc::{AllocError, Global};
use std::marker::Model;

/// How the next byte is quoted. `Refused` is behind a dollar or a backquote that a shell would
/// replace.
#[derive(Clone, Copy)]
pub enum Quoting {
    Plain,
    Escaped,
    Single,
    Double,
    DoubleEscaped,
    Refused,
}

/// The words that ended, and the one that began.
#[derive(Drop)]
struct Words {
    ended: Vec<Bytes>,
    has_begun: bool,
    word: Vec<u8>,
    quoting: Quoting,
}

impl Model for Words {
    ghost use Rattle.kob_policy_text.specs.Shell as seen;

    ghost Value = { seen.Words };

    ghost view = { λ words. record {
      ended = words.ended.items;
      has_begun = words.has_begun;
      word = words.word.items;
      quoting = words.quoting;
    } };
}

impl Words {
    fn new(alloc: Global) -> Words
        ensures { result ≡ no_words }
    {
        Words {
            ended: Vec::new(alloc),
            has_begun: false,
            word: Vec::new(alloc),
            quoting: Quoting::Plain,
        }
    }

    fn end(&mut self, alloc: Global) -> Result<(), AllocError>
        ensures { OnOk result (self.new ≡ with_end self.old) }
    {
        if self.has_begun {
            self.ended.push(Bytes::copied(alloc, &self.word)?)?;
        }
        self.word.clear();
        self.has_begun = false;
        self.quoting = Quoting::Plain;
        Ok(())
    }

    fn add(&mut self, byte: u8) -> Result<(), AllocError>
        ensures { OnOk result (self.new ≡ with_byte self.old byte) }
    {
        self.has_begun = true;
        self.word.push(byte)?;
        Ok(())
    }

    fn quote(&mut self, quoting: Quoting)
        ensures { self.new ≡ with_quoting self.old quoting }
    {
        self.has_begun = true;
        self.quoting = quoting;
    }

    /// The backslash before a byte that needs no quoting between double quotes is a byte itself.
    #[tactic(auto, unfolding(crate::specs::Shell::with_shell_byte))]
    fn read(&mut self, alloc: Global, byte: u8) -> Result<(), AllocError>
        ensures { OnOk result (self.new ≡ with_shell_byte self.old byte) }
    {
        match self.quoting {
            Quoting::Plain => match byte {
                b' ' | b'\t' => self.end(alloc)?,
                b'\'' => self.quote(Quoting::Single),
                b'"' => self.quote(Quoting::Double),
                b'\\' => self.quote(Quoting::Escaped),
                b'$' | b'`' => self.quote(Quoting::Refused),
                _ => self.add(byte)?,
            },
            Quoting::Escaped => {
                self.quote(Quoting::Plain);
                self.add(byte)?;
            }
            Quoting::Single => match byte {
                b'\'' => self.quote(Quoting::Plain),
                _ => self.add(byte)?,
            },
            Quoting::Double => match byte {
                b'"' => self.quote(Quoting::Plain),
                b'\\' => self.quote(Quoting::DoubleEscaped),
                b'$' | b'`' => self.quote(Quoting::Refused),
                _ => self.add(byte)?,
            },
            Quoting::DoubleEscaped => {
                self.quote(Quoting::Double);
                if !matches!(byte, b'"' | b'\\' | b'$' | b'`') {
                    self.add(b'\\')?;
                }
                self.add(byte)?;
            }
            Quoting::Refused => {}
        }
        Ok(())
    }
}

/// How a byte behind the line would be quoted.
#[tactic(auto, using(crate::proofs::Passing::reads_more, crate::proofs::Passing::quoting_ends))]
pub fn quoting_after(alloc: Global, line: &[u8]) -> Result<Quoting, AllocError>
    ensures { IfOk result (λ quoting. quoting ≡ quoting_after line.now) }
{
    let mut words = Words::new(alloc);
    for byte in line {
        words.read(alloc, *byte)?;
    }
    Ok(words.quoting)
}

/// The words of a line, without their quotes. The fault is `Usage`: a quote that does not end, or a
/// dollar or a backquote that a shell would replace.
#[tactic(auto, using(crate::proofs::Passing::reads_more, crate::proofs::Passing::words_end))]
pub fn shell_words(alloc: Global, line: &[u8]) -> Result<Vec<Bytes>, LineError>
    ensures { GivesSeen (λ words. words.items) result (shell_words line.now) }
{
    let mut words = Words::new(alloc);
    for byte in line {
        words.read(alloc, *byte)?;
    }
    match words.quoting {
        Quoting::Plain => {
            words.end(alloc)?;
            Ok(words.ended)
        }
        _ => Err(LineError::Fault(FaultKind::Usage)),
    }
}

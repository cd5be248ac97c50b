//! The requests of a checked script. Each is read when it is needed.

ghost use Rattle.std.specs.Prelude.{◌≡◌, ◌≤◌, ◌<◌, ◌+◌, ◌++◌, ◌∷◌, [], drop, length, None};
ghost use Rattle.std.specs.Prelude.{IfOk, IsOk, Ok, OnOk, OnErr, MatchOption, slice_index_or};
ghost use Rattle.std.specs.Result.{result_unwrap_or};

use crate::command_lines::{asks_clap, read_event};
use crate::fault::LineError;
use crate::script::is_setting;
use crate::words::{NO_WORD, Word, put_words, words_of};
use bstr::ByteSlice;
use kob_acl_cli::CliArgs;
use kob_names::Bytes;
use kob_rights::Event;
use std::alloc::{AllocError, Global};
use std::collections::VecDeque;
use std::marker::Model;
use std::mem::ManuallyDrop;

/// The requests of a script that are left, in order. Contracts see their events. A request is kept
/// as its line until it is returned, with `clap`'s answer to an `acl` line, since another call may
/// return another one.
#[derive(Debug, Drop)]
pub struct Requests {
    blocks: Blocks,
    answers: VecDeque<Option<CliArgs>>,
    /// What the `acl` line read last asks for.
    asked: VecDeque<Event>,
    left: u64,
}

impl Model for Requests {
    ghost use Rattle.std.specs.Prelude.{List};
    ghost use Rattle.kob_script.specs.Script.{AreCounted, Event, requests_left};

    ghost Value = { List Event };

    ghost view = { requests_left };

    ghost invariant = { AreCounted };
}

impl Requests {
    ghost use Rattle.kob_script.specs.Script.{AreRead, answers_after, line_words, lines_ask};
    ghost use Rattle.kob_script.specs.Script.{lines_in_blocks, requests_in, requests_of};
    ghost use Rattle.kob_script.specs.Script.{requests_on, steps_left};
    ghost use Rattle.kob_script.specs.Words.{counted};

    /// What the lines of blocks ask for, by the answers to those of `acl`, and the number of these
    /// requests. Does not allocate.
    pub(crate) fn new(
        alloc: Global,
        blocks: Vec<Bytes>,
        answers: Vec<Option<CliArgs>>,
        count: u64,
    ) -> Requests
        requires { counted (requests_in (lines_in_blocks blocks.items) answers.items) ≡ Ok count }
        ensures { requests_in (lines_in_blocks blocks.items) answers.items ≡ Ok result }
    {
        Requests {
            blocks: Blocks::new(alloc, blocks),
            answers: VecDeque::from(answers),
            asked: VecDeque::new(alloc),
            left: count,
        }
    }

    /// The number of requests that are left.
    pub fn len(&self) -> u64
        ensures { result ≡ length self.now }
    {
        self.left
    }

    /// Reads the next request, of which there has to be one: `next` is its event then. The principal
    /// and the host of the event that it was before are not parsed again. A block is freed when a
    /// request after it is read. The error is out of memory; the same requests are then left, and
    /// `next` is no event of the script, though it may have the next one's principal and host.
    pub fn next_event(&mut self, alloc: Global, next: &mut Option<Event>) -> Result<(), AllocError>
        requires { 0 < length self.old }
        ensures next { OnOk result
            (MatchOption next.new ⊥ (λ event. self.old ≡ event ∷ self.new)) }
        ensures same { OnErr result (self.new ≡ self.old) }
    {
        loop {
            if !self.asked.is_empty() {
                Requests::take_asked(next, &mut self.asked);
                break;
            }
            if Requests::read_on(
                alloc,
                next,
                &mut self.blocks,
                &mut self.answers,
                &mut self.asked,
            )? {
                break;
            }
        }
        self.left -= 1;
        Ok(())
    }

    // Takes the first event that an `acl` line asked for. A frame of its own, since an event takes
    // much room.
    #[inline(never)]
    fn take_asked(next: &mut Option<Event>, asked: &mut VecDeque<Event>)
        requires { 0 < length asked.old.items }
        ensures { MatchOption next.new ⊥ (λ event. asked.old.items ≡ event ∷ asked.new.items) }
    {
        *next = asked.pop_front();
    }

    // Reads a line and the event that it asks for, or moves to the next block.
    fn read_on(
        alloc: Global,
        next: &mut Option<Event>,
        blocks: &mut Blocks,
        answers: &mut VecDeque<Option<CliArgs>>,
        asked: &mut VecDeque<Event>,
    ) -> Result<bool, AllocError>
        requires some { 0 < steps_left blocks.old }
        requires none { asked.old.items ≡ [] }
        requires checked { IsOk (lines_ask blocks.old answers.old.items) }
        ensures read { IfOk result (λ read. AreRead read next.new (asked.new.items
            ++ result_unwrap_or (lines_ask blocks.new answers.new.items) [])
            (result_unwrap_or (lines_ask blocks.old answers.old.items) [])) }
        ensures checked { IsOk (lines_ask blocks.new answers.new.items) }
        ensures nearer { OnOk result (steps_left blocks.new < steps_left blocks.old) }
        ensures none { OnErr result (asked.new.items ≡ []) }
        ensures same { OnErr result (lines_ask blocks.new answers.new.items
            ≡ lines_ask blocks.old answers.old.items) }
    {
        let Some((line, size)) = Blocks::first_line(blocks.rest()) else {
            blocks.enter_next();
            return Ok(false);
        };
        // The words that are put here own nothing, so that they are not dropped.
        let mut few = ManuallyDrop::new([
            NO_WORD, NO_WORD, NO_WORD, NO_WORD, NO_WORD, NO_WORD, NO_WORD, NO_WORD, NO_WORD,
            NO_WORD,
        ]);
        let read = Requests::read_again(alloc, next, &mut *few, line, answers, asked)?;
        blocks.pass(size);
        Ok(read)
    }

    // Reads what a line without a fault asks for. If clap was asked about it, its answer is removed.
    #[inline(always)]
    fn read_again<'l>(
        alloc: Global,
        next: &mut Option<Event>,
        few: &mut [Word<'l>],
        line: &'l [u8],
        answers: &mut VecDeque<Option<CliArgs>>,
        asked: &mut VecDeque<Event>,
    ) -> Result<bool, AllocError>
        requires none { asked.old.items ≡ [] }
        requires checked { IsOk (requests_on (slice_index_or answers.old.items 0 None) line.now) }
        ensures asked { IfOk result (λ read. IfOk
            (requests_on (slice_index_or answers.old.items 0 None) line.now)
            (AreRead read next.new asked.new.items)) }
        ensures used { OnOk result (answers.new.items
            ≡ answers_after (line_words line.now) answers.old.items) }
        ensures same { OnErr result ((asked.new.items ≡ [])
            × (answers.new.items ≡ answers.old.items)) }
    {
        if let Some(count) = put_words(few, line) {
            return Requests::read_cut(alloc, next, &few[..count], answers, asked);
        }
        let words = match words_of(alloc, line) {
            Ok(words) => words,
            Err(LineError::Memory(error)) => return Err(error),
            Err(LineError::Fault(_)) => unreachable!(),
        };
        Requests::read_cut(alloc, next, &words, answers, asked)
    }

    // The same for a line that was cut into words.
    fn read_cut(
        alloc: Global,
        next: &mut Option<Event>,
        words: &[Word<'_>],
        answers: &mut VecDeque<Option<CliArgs>>,
        asked: &mut VecDeque<Event>,
    ) -> Result<bool, AllocError>
        requires none { asked.old.items ≡ [] }
        requires checked { IsOk (requests_of (slice_index_or answers.old.items 0 None) words.now) }
        ensures asked { IfOk result (λ read. IfOk
            (requests_of (slice_index_or answers.old.items 0 None) words.now)
            (AreRead read next.new asked.new.items)) }
        ensures used { OnOk result (answers.new.items ≡ answers_after words.now answers.old.items) }
        ensures same { OnErr result ((asked.new.items ≡ [])
            × (answers.new.items ≡ answers.old.items)) }
    {
        if !asks_clap(words) {
            return Requests::read_words(alloc, next, words, answers, asked);
        }
        let read = Requests::read_words(alloc, next, words, answers, asked)?;
        answers.pop_front();
        Ok(read)
    }

    // Reads what words ask for, by the first answer.
    #[inline(always)]
    fn read_words(
        alloc: Global,
        next: &mut Option<Event>,
        words: &[Word<'_>],
        answers: &VecDeque<Option<CliArgs>>,
        asked: &mut VecDeque<Event>,
    ) -> Result<bool, AllocError>
        requires none { asked.old.items ≡ [] }
        requires checked { IsOk (requests_of (slice_index_or answers.now.items 0 None) words.now) }
        ensures asked { IfOk result (λ read. IfOk
            (requests_of (slice_index_or answers.now.items 0 None) words.now)
            (AreRead read next.new asked.new.items)) }
        ensures same { OnErr result (asked.new.items ≡ []) }
    {
        match words {
            [] => Ok(false),
            [first, ..] if is_setting(first) => Ok(false),
            _ => {
                let answer = match answers.front() {
                    Some(answer) => answer.as_ref(),
                    None => None,
                };
                match read_event(alloc, next, words, answer, asked) {
                    Ok(read) => Ok(read),
                    Err(LineError::Memory(error)) => Err(error),
                    Err(LineError::Fault(_)) => unreachable!(),
                }
            }
        }
    }
}

/// Blocks. The one at the front was read up to `at`.
#[derive(Debug, Drop)]
pub struct Blocks {
    front: Bytes,
    at: usize,
    later: VecDeque<Bytes>,
    ghost within: { at ≤ length front },
}

impl Blocks {
    ghost use Rattle.kob_script.specs.Script.{lines_in, lines_in_blocks, lines_left, rest_of};
    ghost use Rattle.kob_script.specs.Script.{steps_left};

    /// Blocks of which nothing was read. Does not allocate.
    #[tactic(auto, using(crate::proofs::CheckedLines::no_lines))]
    pub fn new(alloc: Global, blocks: Vec<Bytes>) -> Blocks
        ensures { lines_left result ≡ lines_in_blocks blocks.items }
    {
        Blocks {
            front: Bytes::from_vec(Vec::new(alloc)),
            at: 0,
            later: VecDeque::from(blocks),
        }
    }

    /// The bytes of the block at the front that were not yet read.
    pub fn rest(&self) -> &[u8]
        ensures { result.now ≡ rest_of self.now }
    {
        &self.front.as_slice()[self.at..]
    }

    /// Moves past a line of this number of bytes.
    pub fn pass(&mut self, size: usize)
        requires { self.old.at + size ≤ length self.old.front }
        ensures at { self.new.at ≡ self.old.at + size }
        ensures front { self.new.front ≡ self.old.front }
        ensures later { self.new.later ≡ self.old.later }
    {
        let end = self.front.len();
        prove!(size <= end - self.at);
        self.at += size;
    }

    /// Frees the block at the front, which was read to its end, and moves to the next one.
    #[tactic(auto, using(crate::proofs::CheckedLines::next_block, crate::proofs::CheckedLines::fewer_steps))]
    pub fn enter_next(&mut self)
        requires read { rest_of self.old ≡ [] }
        requires some { 0 < length self.old.later.items }
        ensures lines { lines_left self.new ≡ lines_left self.old }
        ensures steps { steps_left self.new < steps_left self.old }
    {
        if let Some(block) = self.later.pop_front() {
            self.front = block;
            self.at = 0;
        }
    }

    /// The line at the front of bytes, if there are any: without its end, and its number of bytes with it.
    #[tactic(auto, using(crate::proofs::CheckedLines::first_line_splits))]
    pub fn first_line(bytes: &[u8]) -> Option<(&[u8], usize)>
        ensures { MatchOption result (lines_in bytes.entry.now ≡ []) (λ line.
            (line.1 ≤ length bytes.entry.now)
            × (lines_in bytes.entry.now ≡ line.0.now ∷ lines_in (drop line.1 bytes.entry.now))) }
    {
        let whole = bytes.lines_with_terminator().next()?;
        Some((without_end(whole), whole.len()))
    }
}

ghost use Rattle.bstr.specs.Text.{without_terminator};

// A line without its line feed and a carriage return before it.
fn without_end(line: &[u8]) -> &[u8]
    ensures { result.now ≡ without_terminator line.entry.now }
{
    match line {
        [text @ .., b'\r', b'\n'] | [text @ .., b'\n'] => text,
        _ => line,
    }
}

//! What stands between the blanks of a line. Blanks and percent signs are searched for by 16 bytes.

ghost use Rattle.std.specs.Prelude.{◌≡◌, ◌==◌, ◌+◌, ◌<◌, ◌≤◌, ◌∷◌, [], ℕ, false, get_or, true};
ghost use Rattle.std.specs.Prelude.{IfSome, IsTrue, MatchOption, drop, length, map};
ghost use Rattle.std.specs.Simd.Lanes.{mask_l};
ghost use Rattle.kob_words.specs.Words.{has_percent};
ghost use Rattle.kob_script.specs.Words.{is_blank, raw_words};
ghost use Rattle.kob_script.specs.RawWords.{HasNoPercent, blank_bits};

use std::simd::prelude::*;

/// A line of which some words were returned.
#[derive(Drop)]
pub(crate) struct RawWords<'l> {
    line: &'l [u8],
    /// The words before this place were returned.
    at: usize,
    /// Blanks and percent signs were searched for up to this place.
    end: usize,
    /// A bit for each byte from `at` to `end`: whether it is a blank.
    blanks: u64,
    /// Whether no percent sign is before `end`.
    is_plain: bool,
    ghost order: { at ≤ end },
    ghost within: { end ≤ length line.now },
    ghost few: { end ≤ at + 16 },
    ghost bits: { blanks ≡ blank_bits line.now at end },
    ghost plain: { IsTrue is_plain → HasNoPercent line.now 0 end },
}

impl<'l> RawWords<'l> {
    /// The words of a line.
    #[inline(always)]
    pub(crate) fn of(line: &'l [u8]) -> RawWords<'l>
        ensures at { result.at ≡ 0 }
        ensures line { result.line.now ≡ line.now }
    {
        RawWords {
            line,
            at: 0,
            end: 0,
            blanks: 0,
            is_plain: true,
        }
    }

    /// The next word. There is no percent sign in it if `is_plain` is true then.
    #[inline(always)]
    pub(crate) fn next(&mut self) -> Option<&'l [u8]>
        ensures next { MatchOption result
            (raw_words (drop self.old.at self.old.line.now) ≡ [])
            (λ raw. raw_words (drop self.old.at self.old.line.now)
            ≡ raw.now ∷ raw_words (drop self.new.at self.new.line.now)) }
        ensures plain { IfSome result (λ raw. IsTrue self.new.is_plain
            → has_percent raw.now ≡ false) }
        ensures before { IsTrue self.new.is_plain → IsTrue self.old.is_plain }
    {
        loop {
            let start = self.at;
            let end = self.pass_blank();
            if start < end {
                return Some(&self.line[start..end]);
            }
            if end == self.line.len() {
                return None;
            }
        }
    }

    /// Passes the next blank, and returns its place, or passes what is left, and returns the length
    /// of the line.
    #[inline(always)]
    fn pass_blank(&mut self) -> usize
        ensures line { self.new.line ≡ self.old.line }
        ensures letters { (k : ℕ) → self.old.at ≤ k → k < result
            → is_blank (get_or self.old.line.now k 0) ≡ false }
        ensures blank { result < length self.old.line.now
            → (is_blank (get_or self.old.line.now result 0) ≡ true) × (self.new.at ≡ result + 1) }
        ensures last { length self.old.line.now ≤ result → self.new.at ≡ result }
        ensures within { (self.old.at ≤ result) × (result ≤ self.new.end) }
        ensures before { IsTrue self.new.is_plain → IsTrue self.old.is_plain }
    {
        while self.blanks == 0 {
            self.at = self.end;
            if self.end == self.line.len() {
                return self.end;
            }
            let part = Part::of(self.line, self.end);
            self.blanks = part.blanks;
            self.end = part.end;
            self.is_plain &= part.is_plain;
        }
        let letters = self.blanks.trailing_zeros();
        let blank = self.at + letters as usize;
        self.blanks >>= letters + 1;
        self.at = blank + 1;
        blank
    }

    /// Whether no percent sign is in the words that were returned.
    #[inline(always)]
    pub(crate) fn is_plain(&self) -> bool
        ensures { result ≡ self.now.is_plain }
    {
        self.is_plain
    }
}

/// At most 16 bytes of a line.
#[derive(Clone, Copy)]
struct Part {
    /// A bit for each: whether it is a blank.
    blanks: u64,
    /// The place behind them.
    end: usize,
    /// Whether no percent sign is among them.
    is_plain: bool,
}

impl Part {
    /// Those from a place on.
    #[inline(always)]
    fn of(line: &[u8], at: usize) -> Part
        requires { at < length line.now }
        ensures within { (at < result.end) × (result.end ≤ length line.now) }
        ensures few { result.end ≤ at + 16 }
        ensures bits { result.blanks ≡ blank_bits line.now at result.end }
        ensures plain { IsTrue result.is_plain → HasNoPercent line.now at result.end }
    {
        if line.len() - at >= 16 {
            let lanes = u8x16::from_slice(&line[at..]);
            return Part {
                blanks: blanks(lanes),
                end: at + 16,
                is_plain: percents(lanes) == 0,
            };
        }
        if line.len() < 16 {
            return Part::of_short(line, at);
        }
        // The last 16 bytes, of which those before the place are passed over.
        let lanes = u8x16::from_slice(&line[line.len() - 16..]);
        Part {
            blanks: blanks(lanes) >> (at + 16 - line.len()),
            end: line.len(),
            is_plain: percents(lanes) == 0,
        }
    }

    // A line of fewer than 16 bytes.
    fn of_short(line: &[u8], at: usize) -> Part
        requires { (at < length line.now) × (length line.now < 16) }
        ensures end { result.end ≡ length line.now }
        ensures bits { result.blanks ≡ blank_bits line.now at result.end }
        ensures plain { IsTrue result.is_plain → HasNoPercent line.now at result.end }
    {
        let mut part = Part {
            blanks: 0,
            end: line.len(),
            is_plain: true,
        };
        let mut place = line.len();
        while place > at {
            place -= 1;
            part.blanks = part.blanks * 2 + is_blank(line[place]) as u64;
            part.is_plain &= line[place] != b'%';
        }
        part
    }
}

#[inline(always)]
fn blanks(lanes: u8x16) -> u64
    ensures { result ≡ mask_l (map is_blank lanes) }
{
    (lanes.simd_eq(u8x16::splat(b' ')) | lanes.simd_eq(u8x16::splat(b'\t'))).to_bitmask()
}

#[inline(always)]
fn percents(lanes: u8x16) -> u64
    ensures { result ≡ mask_l (map (λ byte. byte == 37) lanes) }
{
    lanes.simd_eq(u8x16::splat(b'%')).to_bitmask()
}

/// Whether a byte is a space or a tab.
pub(crate) fn is_blank(byte: u8) -> bool
    ensures { result ≡ is_blank byte }
{
    // Most bytes are greater than a blank.
    byte <= b' ' && (byte >= b' ' || byte == b'\t')
}

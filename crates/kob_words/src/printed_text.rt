//! How bytes and numbers are printed.

ghost use Rattle.std.specs.Prelude.{◌≡◌, ◌<◌, ◌≤◌, ◌++◌, length, take, OnErr, OnOk};
ghost use Rattle.std.specs.Char.{digit_char};
ghost use Rattle.std.specs.Fmt.{decimal};
ghost use Rattle.std.specs.List.{list_all};
ghost use Rattle.std.specs.Str.{IsAscii};
ghost use Rattle.kob_words.specs.Words.{IsKept, is_plain, byte_text, bytes_text, plain_length};
ghost use Rattle.kob_words.specs.Words.{counted, spaced};

use itoa::Buffer;
use std::alloc::AllocError;

/// Takes away what a printer that failed put behind the first `start` bytes.
pub fn whole_or_nothing(
    out: &mut Vec<u8>,
    start: usize,
    printed: Result<(), AllocError>,
) -> Result<(), AllocError>
    ensures result { result ≡ printed }
    ensures whole { OnOk printed (out.new.items ≡ out.old.items) }
    ensures nothing { OnErr printed (out.new.items ≡ take start out.old.items) }
{
    if printed.is_err() {
        out.truncate(start);
    }
    printed
}

/// Prints bytes. Each byte outside 0x21 to 0x7e, and each `%` and `=`, is printed as `%` and two
/// lower-case hexadecimal digits. On an error `out` is as it was.
pub fn push_bytes(out: &mut Vec<u8>, bytes: &[u8]) -> Result<(), AllocError>
    ensures text { OnOk result (out.new.items ≡ out.old.items ++ bytes_text bytes.now) }
    ensures ascii { OnOk result (IsAscii (bytes_text bytes.now)) }
    ensures same { OnErr result (out.new.items ≡ out.old.items) }
{
    let start = out.len();
    let printed = push_each(out, bytes);
    whole_or_nothing(out, start, printed)
}

#[tactic(auto, using(crate::proofs::Appending::kept))]
fn push_each(out: &mut Vec<u8>, bytes: &[u8]) -> Result<(), AllocError>
    ensures text { OnOk result (out.new.items ≡ out.old.items ++ bytes_text bytes.now) }
    ensures ascii { OnOk result (IsAscii (bytes_text bytes.now)) }
    ensures kept { OnErr result (IsKept out.old.items out.new.items) }
{
    let mut rest = bytes;
    loop {
        let (plain, others) = rest.split_at(plain_length(rest));
        out.extend_from_slice(plain)?;
        let Some((byte, after)) = others.split_first() else {
            return Ok(());
        };
        push_byte(out, *byte)?;
        rest = after;
    }
}

/// How many bytes at the front are printed as they are.
fn plain_length(bytes: &[u8]) -> usize
    ensures length { result ≡ plain_length bytes.now }
    ensures within { result ≤ length bytes.now }
{
    let mut length = 0;
    while bytes.len() - length >= 16 && are_plain(&bytes[length..length + 16]) {
        length += 16;
    }
    while length < bytes.len() && is_plain(bytes[length]) {
        length += 1;
    }
    length
}

/// Whether all bytes are printed as they are.
#[inline(always)]
fn are_plain(bytes: &[u8]) -> bool
    ensures { result ≡ list_all is_plain bytes.now }
{
    // No early exit, so that all bytes are tested at once.
    let mut plain = true;
    for byte in bytes {
        plain &= is_plain(*byte);
    }
    plain
}

#[tactic(auto, using(crate::proofs::Appending::kept))]
fn push_byte(out: &mut Vec<u8>, byte: u8) -> Result<(), AllocError>
    ensures text { OnOk result (out.new.items ≡ out.old.items ++ byte_text byte) }
    ensures ascii { OnOk result (IsAscii (byte_text byte)) }
    ensures kept { OnErr result (IsKept out.old.items out.new.items) }
{
    if is_plain(byte) {
        out.push(byte)?;
        return Ok(());
    }
    out.push(b'%')?;
    out.push(hex_digit(byte / 16))?;
    out.push(hex_digit(byte % 16))?;
    Ok(())
}

fn is_plain(byte: u8) -> bool
    ensures { result ≡ is_plain byte }
{
    (0x21 <= byte) & (byte <= 0x7e) & (byte != b'%') & (byte != b'=')
}

/// The hexadecimal digit for a number below 16, in lower case.
pub fn hex_digit(digit: u8) -> u8
    requires { digit < 16 }
    ensures { result ≡ digit_char digit }
{
    if digit < 10 {
        b'0' + digit
    } else {
        b'a' + (digit - 10)
    }
}

/// Prints a space and bytes, as `push_bytes` prints them.
#[tactic(auto, using(crate::proofs::Appending::kept))]
pub fn push_spaced(out: &mut Vec<u8>, text: &[u8]) -> Result<(), AllocError>
    ensures text { OnOk result (out.new.items ≡ out.old.items ++ spaced text.now) }
    ensures kept { OnErr result (IsKept out.old.items out.new.items) }
{
    out.push(b' ')?;
    push_bytes(out, text)
}

/// Prints a space and a number, as `push_number` prints it.
#[tactic(auto, using(crate::proofs::Appending::kept))]
pub fn push_counted(out: &mut Vec<u8>, number: u64) -> Result<(), AllocError>
    ensures text { OnOk result (out.new.items ≡ out.old.items ++ counted number) }
    ensures kept { OnErr result (IsKept out.old.items out.new.items) }
{
    out.push(b' ')?;
    push_number(out, number)
}

/// Prints a number in decimal digits. On an error `out` is as it was.
#[tactic(auto, using(crate::proofs::AsciiText::one_digit))]
pub fn push_number(out: &mut Vec<u8>, number: u64) -> Result<(), AllocError>
    ensures text { OnOk result (out.new.items ≡ out.old.items ++ decimal number) }
    ensures ascii { OnOk result (IsAscii (decimal number)) }
    ensures same { OnErr result (out.new.items ≡ out.old.items) }
{
    if number < 10 {
        out.push(b'0' + number as u8)?;
        return Ok(());
    }
    let mut digits = Buffer::new();
    out.extend_from_slice(digits.format(number).as_bytes())
}

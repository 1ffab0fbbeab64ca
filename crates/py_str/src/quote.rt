//! Texts in quotes, as `repr` and `ascii` give them.

ghost use Rattle.std.specs.Prelude.{◌≡◌, ◌∷◌, ◌++◌, ◌<◌, ◌==◌, [], Bool, chars, take_while, drop, length};
ghost use Rattle.std.specs.Prelude.{IsUtf8, OnOk, IfOk, IfSome, IsOkUnless, MatchOption};
ghost use Rattle.std.specs.Char.{digit_char};
ghost use Rattle.std.specs.List.{list_any};
ghost use Rattle.py_base.specs.Chars.Classes.{between};
ghost use Rattle.py_base.specs.Chars.Quoting as spec;
ghost use Rattle.py_base.specs.Chars.Whitespace.{skip_while};
ghost use Rattle.py_str.specs.Passing.{IsPassed};
ghost use Rattle.py_str.specs.Quote.{plain_of, keeps, is_kept, text_ascii};

use py_base::{PyError, PyResult, is_printable};
use py_text::{PyBytes, PyStr};
use std::alloc::Global;

// Whether the character is one from the space to `~`.
fn is_plain_ascii(c: char) -> bool
    ensures { result ≡ between 32 126 c }
{
    matches!(c, ' '..='~')
}

// Whether the character needs no escape by its class; for `ascii` it is at most `~` too. The table
// of categories is asked for other characters than ASCII alone.
fn is_plain(ascii: bool, c: char) -> bool
    ensures { result ≡ plain_of ascii c }
{
    if is_plain_ascii(c) {
        true
    } else if ascii {
        false
    } else {
        is_printable(c as u32)
    }
}

// Whether the character is written as it is.
fn is_kept(ascii: bool, quote: char, c: char) -> bool
    ensures { result ≡ keeps ascii quote c }
{
    is_plain(ascii, c) && !(c == quote || c == '\\' || c == '\n' || c == '\r' || c == '\t')
}

// Whether the byte is an ASCII character that is written as it is.
fn is_kept_byte(quote: char, byte: u8) -> bool
    ensures { result ≡ is_kept quote (between 32 126 byte) byte }
{
    let c = char::from(byte);
    is_plain_ascii(c) && !(c == quote || c == '\\' || c == '\n' || c == '\r' || c == '\t')
}

// How many bytes at the start are ASCII characters that are written as they are.
fn kept_ascii(text: &str, quote: char) -> usize
    ensures { (ascii : Bool) → IsPassed (keeps ascii quote) text.now (drop result text.now) result }
{
    let bytes = text.as_bytes();
    let mut at = 0;
    'bytes: while at < bytes.len() {
        if !is_kept_byte(quote, bytes[at]) {
            return at;
        }
        at += 1;
    }
    at
}

// The text before the first character that is not written as it is, that character, and the text
// after it. ASCII at the start is walked over by bytes.
fn first_escaped(text: &str, ascii: bool, quote: char) -> Option<(&str, char, &str)>
    ensures text { IfSome result (λ p. IsUtf8 p.2.now) }
    ensures before { MatchOption result
        (take_while (keeps ascii quote) (chars text.now) ≡ chars text.now)
        (λ p. take_while (keeps ascii quote) (chars text.now) ≡ chars p.0.now) }
    ensures rest { MatchOption result (skip_while (keeps ascii quote) (chars text.now) ≡ [])
        (λ p. skip_while (keeps ascii quote) (chars text.now) ≡ p.1 ∷ chars p.2.now) }
    ensures shorter { IfSome result (λ p. length p.2.now < length text.now) }
{
    let mut at = kept_ascii(text, quote);
    let mut rest = text[at..].chars();
    'chars: while let Some(c) = rest.next() {
        if !is_kept(ascii, quote, c) {
            return Some((&text[..at], c, rest.as_str()));
        }
        at += c.len_utf8();
    }
    None
}

fn hex_digit(digit: u32) -> char
    requires { digit < 16 }
    ensures { result ≡ digit_char digit }
{
    char::from_digit(digit, 16).unwrap()
}

fn push_hex_2(out: &mut PyStr, code: u32) -> PyResult<()>
    requires { code < 256 }
    ensures ok { OnOk result (out.new ≡ out.old ++ spec.hex_2 code) }
    ensures err { IsOkUnless result PyError.NoMemory }
{
    out.append_char(hex_digit(code / 16))?;
    out.append_char(hex_digit(code % 16))?;
    Ok(())
}

fn push_hex_4(out: &mut PyStr, code: u32) -> PyResult<()>
    requires { code < 65536 }
    ensures ok { OnOk result (out.new ≡ out.old ++ spec.hex_4 code) }
    ensures err { IsOkUnless result PyError.NoMemory }
{
    push_hex_2(out, code / 256)?;
    push_hex_2(out, code % 256)?;
    Ok(())
}

fn push_hex_8(out: &mut PyStr, code: u32) -> PyResult<()>
    ensures ok { OnOk result (out.new ≡ out.old ++ spec.hex_8 code) }
    ensures err { IsOkUnless result PyError.NoMemory }
{
    push_hex_4(out, code / 65536)?;
    push_hex_4(out, code % 65536)?;
    Ok(())
}

// A backslash and a letter.
fn push_escape(out: &mut PyStr, letter: char) -> PyResult<()>
    ensures ok { OnOk result (out.new ≡ out.old ++ 92 ∷ letter ∷ []) }
    ensures err { IsOkUnless result PyError.NoMemory }
{
    out.append_char('\\')?;
    out.append_char(letter)?;
    Ok(())
}

// The shortest escape that holds the number.
fn push_number(out: &mut PyStr, code: u32) -> PyResult<()>
    ensures ok { OnOk result (out.new ≡ out.old ++ spec.by_number code) }
    ensures err { IsOkUnless result PyError.NoMemory }
{
    if code < 256 {
        push_escape(out, 'x')?;
        push_hex_2(out, code)?;
        return Ok(());
    }
    if code < 65536 {
        push_escape(out, 'u')?;
        push_hex_4(out, code)?;
        return Ok(());
    }
    push_escape(out, 'U')?;
    push_hex_8(out, code)?;
    Ok(())
}

// One character between quotes; `plain` says whether its class needs no escape.
fn push_quoted(out: &mut PyStr, quote: char, plain: bool, c: char) -> PyResult<()>
    ensures ok { OnOk result (out.new ≡ out.old ++ spec.quoted_char quote plain c) }
    ensures err { IsOkUnless result PyError.NoMemory }
{
    if c == quote || c == '\\' {
        return push_escape(out, c);
    }
    match c {
        '\n' => push_escape(out, 'n'),
        '\r' => push_escape(out, 'r'),
        '\t' => push_escape(out, 't'),
        _ if plain => out.append_char(c),
        _ => push_number(out, c as u32),
    }
}

// The characters of a text, in runs.
fn push_chars(out: &mut PyStr, ascii: bool, quote: char, text: &str) -> PyResult<()>
    ensures ok { OnOk result (out.new ≡ out.old
        ++ spec.quoted_chars quote (plain_of ascii) (chars text.now)) }
    ensures err { IsOkUnless result PyError.NoMemory }
{
    let mut rest = text;
    'runs: while let Some((before, c, after)) = first_escaped(rest, ascii, quote) {
        out.append(before)?;
        push_quoted(out, quote, is_plain(ascii, c), c)?;
        rest = after;
    }
    out.append(rest)?;
    Ok(())
}

// Whether the text has an ASCII character, which is looked for among the bytes.
fn holds(text: &str, mark: u8) -> bool
    requires { mark < 128 }
    ensures { result ≡ list_any (λ c. c == mark) (chars text.now) }
{
    text.as_bytes().contains(&mark)
}

fn text_quote(text: &str) -> char
    ensures { result ≡ spec.quote_of (chars text.now) }
{
    if holds(text, b'\'') && !holds(text, b'"') {
        '"'
    } else {
        '\''
    }
}

// The text in quotes; room for a text without escapes is taken at once.
fn quoted(alloc: Global, ascii: bool, text: &PyStr) -> PyResult<PyStr>
    ensures ok { IfOk result (λ made. made ≡ spec.quoted (plain_of ascii) text.now) }
    ensures err { IsOkUnless result PyError.NoMemory }
{
    let chars = text.as_str();
    let quote = text_quote(chars);
    let mut out = PyStr::with_capacity(alloc, chars.len().saturating_add(2))?;
    out.append_char(quote)?;
    push_chars(&mut out, ascii, quote, chars)?;
    out.append_char(quote)?;
    Ok(out)
}

/// The text in quotes.
pub(crate) fn repr(text: &PyStr, alloc: Global) -> PyResult<PyStr>
    ensures ok { IfOk result (λ made. made ≡ spec.text_repr text.now) }
    ensures err { IsOkUnless result PyError.NoMemory }
{
    quoted(alloc, false, text)
}

/// The text in quotes, and each character past `~` escaped.
pub(crate) fn ascii(text: &PyStr, alloc: Global) -> PyResult<PyStr>
    ensures ok { IfOk result (λ made. made ≡ text_ascii text.now) }
    ensures err { IsOkUnless result PyError.NoMemory }
{
    quoted(alloc, true, text)
}

fn bytes_quote(bytes: &[u8]) -> char
    ensures { result ≡ spec.quote_of bytes.now }
{
    if bytes.contains(&b'\'') && !bytes.contains(&b'"') {
        '"'
    } else {
        '\''
    }
}

fn is_plain_byte(byte: u8) -> bool
    ensures { result ≡ spec.is_plain_byte byte }
{
    matches!(byte, 0x20..=0x7E)
}

fn push_bytes(out: &mut PyStr, quote: char, bytes: &[u8]) -> PyResult<()>
    ensures ok { OnOk result (out.new ≡ out.old
        ++ spec.quoted_chars quote spec.is_plain_byte bytes.now) }
    ensures err { IsOkUnless result PyError.NoMemory }
{
    'bytes: for byte in bytes {
        push_quoted(out, quote, is_plain_byte(*byte), char::from(*byte))?;
    }
    Ok(())
}

/// The bytes in quotes, after `b`.
pub(crate) fn bytes_repr(bytes: &PyBytes, alloc: Global) -> PyResult<PyStr>
    ensures ok { IfOk result (λ made. made ≡ spec.bytes_repr bytes.now) }
    ensures err { IsOkUnless result PyError.NoMemory }
{
    let whole = bytes.as_bytes();
    let quote = bytes_quote(whole);
    let mut out = PyStr::with_capacity(alloc, whole.len().saturating_add(3))?;
    out.append_char('b')?;
    out.append_char(quote)?;
    push_bytes(&mut out, quote, whole)?;
    out.append_char(quote)?;
    Ok(out)
}

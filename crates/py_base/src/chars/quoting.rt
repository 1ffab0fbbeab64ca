//! How a text or bytes are written in quotes, as `repr` writes them.

ghost use Rattle.std.specs.Prelude.{◌≡◌, ◌==◌, ◌<◌, ◌∷◌, [], chars};
ghost use Rattle.std.specs.List.{list_any};
ghost use Rattle.std.specs.Char.{digit_char};
ghost use Rattle.py_base.specs.Chars.Quoting as spec;
ghost use Rattle.py_base.specs.Chars.Quoting.{WritesText, text_chars, text_within, bytes_chars, bytes_within};

use crate::chars::classes::is_printable;
use std::fmt::{self, Formatter, Write};

fn hex_digit(digit: u32) -> char
    requires { digit < 16 }
    ensures { result ≡ digit_char digit }
{
    char::from_digit(digit, 16).unwrap()
}

fn write_hex_2<W: Write>(f: &mut Formatter<W>, code: u32) -> fmt::Result
    requires { code < 256 }
    ensures { WritesText W.write_str_gives f.old result (spec.hex_2 code) f.new }
{
    f.write_char(hex_digit(code / 16))?;
    f.write_char(hex_digit(code % 16))
}

fn write_hex_4<W: Write>(f: &mut Formatter<W>, code: u32) -> fmt::Result
    requires { code < 65536 }
    ensures { WritesText W.write_str_gives f.old result (spec.hex_4 code) f.new }
{
    write_hex_2(f, code / 256)?;
    write_hex_2(f, code % 256)
}

fn write_hex_8<W: Write>(f: &mut Formatter<W>, code: u32) -> fmt::Result
    ensures { WritesText W.write_str_gives f.old result (spec.hex_8 code) f.new }
{
    write_hex_4(f, code / 65536)?;
    write_hex_4(f, code % 65536)
}

// A backslash and a letter.
fn write_escape<W: Write>(f: &mut Formatter<W>, letter: char) -> fmt::Result
    ensures { WritesText W.write_str_gives f.old result (92 ∷ letter ∷ []) f.new }
{
    f.write_char('\\')?;
    f.write_char(letter)
}

fn write_number<W: Write>(f: &mut Formatter<W>, code: u32) -> fmt::Result
    ensures { WritesText W.write_str_gives f.old result (spec.by_number code) f.new }
{
    if code < 256 {
        write_escape(f, 'x')?;
        write_hex_2(f, code)
    } else if code < 65536 {
        write_escape(f, 'u')?;
        write_hex_4(f, code)
    } else {
        write_escape(f, 'U')?;
        write_hex_8(f, code)
    }
}

// One character within quotes; `plain` says whether it is written as itself.
fn write_quoted_char<W: Write>(
    f: &mut Formatter<W>,
    quote: char,
    plain: bool,
    c: char,
) -> fmt::Result
    ensures { WritesText W.write_str_gives f.old result (spec.quoted_char quote plain c) f.new }
{
    if c == quote || c == '\\' {
        return write_escape(f, c);
    }
    match c {
        '\n' => write_escape(f, 'n'),
        '\r' => write_escape(f, 'r'),
        '\t' => write_escape(f, 't'),
        _ if plain => f.write_char(c),
        _ => write_number(f, c as u32),
    }
}

fn holds(text: &str, mark: char) -> bool
    ensures { result ≡ list_any (λ c. c == mark) (chars text.now) }
{
    text.chars().any(|c| c == mark)
}

fn text_quote(text: &str) -> char
    ensures { result ≡ spec.quote_of (chars text.now) }
{
    if holds(text, '\'') && !holds(text, '"') {
        '"'
    } else {
        '\''
    }
}

fn write_text_chars<W: Write>(f: &mut Formatter<W>, quote: char, text: &str) -> fmt::Result
    ensures { WritesText W.write_str_gives f.old result (text_chars quote (chars text.now)) f.new }
{
    let mut rest = text.chars();
    'chars: while let Some(c) = rest.next() {
        write_quoted_char(f, quote, is_printable(c as u32), c)?;
    }
    Ok(())
}

fn write_text_within<W: Write>(f: &mut Formatter<W>, quote: char, text: &str) -> fmt::Result
    ensures { WritesText W.write_str_gives f.old result (text_within quote (chars text.now)) f.new }
{
    f.write_char(quote)?;
    write_text_chars(f, quote, text)?;
    f.write_char(quote)
}

/// Writes the repr of a text.
pub(crate) fn write_text_repr<W: Write>(f: &mut Formatter<W>, text: &str) -> fmt::Result
    ensures { WritesText W.write_str_gives f.old result (spec.text_repr (chars text.now)) f.new }
{
    write_text_within(f, text_quote(text), text)
}

fn bytes_quote(bytes: &[u8]) -> char
    ensures { result ≡ spec.quote_of bytes.now }
{
    if bytes.contains(&b'\'') && !bytes.contains(&b'"') {
        '"'
    } else {
        '\''
    }
}

fn is_plain_byte(byte: u8) -> bool
    ensures { result ≡ spec.is_plain_byte byte }
{
    matches!(byte, 0x20..=0x7E)
}

fn write_bytes_chars<W: Write>(f: &mut Formatter<W>, quote: char, bytes: &[u8]) -> fmt::Result
    ensures { WritesText W.write_str_gives f.old result (bytes_chars quote bytes.now) f.new }
{
    'bytes: for byte in bytes {
        write_quoted_char(f, quote, is_plain_byte(*byte), char::from(*byte))?;
    }
    Ok(())
}

fn write_bytes_within<W: Write>(f: &mut Formatter<W>, quote: char, bytes: &[u8]) -> fmt::Result
    ensures { WritesText W.write_str_gives f.old result (bytes_within quote bytes.now) f.new }
{
    f.write_char(quote)?;
    write_bytes_chars(f, quote, bytes)?;
    f.write_char(quote)
}

/// Writes the repr of bytes.
pub(crate) fn write_bytes_repr<W: Write>(f: &mut Formatter<W>, bytes: &[u8]) -> fmt::Result
    ensures { WritesText W.write_str_gives f.old result (spec.bytes_repr bytes.now) f.new }
{
    f.write_char('b')?;
    write_bytes_within(f, bytes_quote(bytes), bytes)
}

//! Characters that the grammar names, and those that hexadecimal digits write.

ghost use Rattle.std.specs.Prelude.{◌≡◌, ◌<◌, ◌≤◌, IfSome};
ghost use Rattle.std.specs.Option.{option_map};
ghost use Rattle.re_tree.specs.Characters as spec;

// No character has a greater number.
const LAST_CHARACTER: u32 = 1_114_111;

pub(crate) fn is_digit(c: char) -> bool
    ensures { result ≡ spec.is_digit c }
{
    '0' <= c && c <= '9'
}

pub(crate) fn is_octal(c: char) -> bool
    ensures { result ≡ spec.is_octal c }
{
    '0' <= c && c <= '7'
}

fn is_letter(c: char) -> bool
    ensures { result ≡ spec.is_letter c }
{
    ('A' <= c && c <= 'Z') || ('a' <= c && c <= 'z')
}

pub(crate) fn is_ascii_non_alphanumeric(c: char) -> bool
    ensures { result ≡ spec.is_ascii_non_alphanumeric c }
{
    (c as u32) < 128 && !is_digit(c) && !is_letter(c)
}

fn hex_digit(c: char) -> Option<u32>
    ensures value { result ≡ spec.hex_digit c }
    ensures small { IfSome result (λ d. d < 16) }
{
    match c {
        '0'..='9' => Some(c as u32 - 48),
        'A'..='F' => Some(c as u32 - 55),
        'a'..='f' => Some(c as u32 - 87),
        _ => None,
    }
}

// The character that so many hexadecimal digits write after those of a number, and what is left.
pub(crate) fn hex(count: usize, number: u32, text: &[char]) -> Option<(char, &[char])>
    ensures { option_map (λ x. (x.0, x.1.now)) result ≡ spec.read_hex count number text.now }
{
    if number > LAST_CHARACTER {
        return None;
    }
    if count == 0 {
        return match char::from_u32(number) {
            None => None,
            Some(c) => Some((c, text)),
        };
    }
    match text {
        [] => None,
        [c, rest @ ..] => match hex_digit(*c) {
            None => None,
            Some(digit) => {
                let left = count - 1;
                let next = 16 * number + digit;
                hex(left, next, rest)
            }
        },
    }
}

//! The edges of each class of characters, as CPython answers.

use py_base::*;

// Of each number, the letters of its classes: alphabetic, lower, upper, title, decimal, numeric,
// alnum (m), digit char (g), white, blank (b), line end (e), printable, id start (i), id continue.
const CLASSES: [(u32, &str); 86] = [
    (0x8, ""),
    (0x9, "wb"),
    (0xA, "wbe"),
    (0xD, "wbe"),
    (0xE, ""),
    (0x1B, ""),
    (0x1C, "be"),
    (0x1E, "be"),
    (0x1F, "b"),
    (0x20, "wbp"),
    (0x21, "p"),
    (0x2F, "p"),
    (0x30, "dnmgpc"),
    (0x39, "dnmgpc"),
    (0x3A, "p"),
    (0x40, "p"),
    (0x41, "aumpic"),
    (0x5A, "aumpic"),
    (0x5B, "p"),
    (0x5F, "pic"),
    (0x60, "p"),
    (0x61, "almpic"),
    (0x7A, "almpic"),
    (0x7B, "p"),
    (0x7E, "p"),
    (0x7F, ""),
    (0x84, ""),
    (0x85, "wbe"),
    (0x86, ""),
    (0x9F, ""),
    (0xA0, "wb"),
    (0xA1, "p"),
    (0xAA, "almpic"),
    (0xAD, ""),
    (0xB1, "p"),
    (0xB2, "nmgp"),
    (0xB3, "nmgp"),
    (0xB4, "p"),
    (0xB8, "p"),
    (0xB9, "nmgp"),
    (0xBA, "almpic"),
    (0xE9, "almpic"),
    (0x1C5, "atmpic"),
    (0x345, "almpc"),
    (0x660, "dnmpc"),
    (0x669, "dnmpc"),
    (0x167F, "ampic"),
    (0x1680, "wb"),
    (0x1681, "ampic"),
    (0x1FFF, ""),
    (0x2000, "wb"),
    (0x200A, "wb"),
    (0x200B, ""),
    (0x2027, "p"),
    (0x2028, "wbe"),
    (0x2029, "wbe"),
    (0x202A, ""),
    (0x202E, ""),
    (0x202F, "wb"),
    (0x2030, "p"),
    (0x205E, "p"),
    (0x205F, "wb"),
    (0x2060, ""),
    (0x206F, ""),
    (0x2070, "nmgp"),
    (0x2071, "almpic"),
    (0x2073, ""),
    (0x2074, "nmgp"),
    (0x2079, "nmgp"),
    (0x207A, "p"),
    (0x2160, "aunmpic"),
    (0x2FFF, "p"),
    (0x3000, "wb"),
    (0x3001, "p"),
    (0x3007, "anmpic"),
    (0x4E2D, "ampic"),
    (0xD7FF, ""),
    (0xD800, ""),
    (0xDFFF, ""),
    (0xE000, ""),
    (0xFFFF, ""),
    (0x1D7FF, "dnmpc"),
    (0x1F600, "p"),
    (0x10FFFF, ""),
    (0x110000, ""),
    (0xFFFFFFFF, ""),
];

// Whether the number is in each of the classes that `LETTERS_AND_NUMBERS` names.
fn letters_and_numbers(c: u32) -> [bool; 7] {
    [
        is_alphabetic(c),
        is_lower(c),
        is_upper(c),
        is_title(c),
        is_decimal(c),
        is_numeric(c),
        is_alnum(c),
    ]
}

const LETTERS_AND_NUMBERS: [char; 7] = ['a', 'l', 'u', 't', 'd', 'n', 'm'];

// Whether the number is in each of the classes that `OTHERS` names.
fn others(c: u32) -> [bool; 7] {
    [
        is_digit_char(c),
        is_white(c),
        is_space(c),
        is_line_end(c),
        is_printable(c),
        is_id_start(c),
        is_id_continue(c),
    ]
}

const OTHERS: [char; 7] = ['g', 'w', 'b', 'e', 'p', 'i', 'c'];

// Whether each of the names is among the letters.
fn named(letters: &str, names: [char; 7]) -> [bool; 7] {
    names.map(|name| letters.contains(name))
}

#[test]
fn classes(rt: HostRuntime) {
    for (c, letters) in &CLASSES {
        let found = (letters_and_numbers(*c), others(*c));
        let wanted = (named(letters, LETTERS_AND_NUMBERS), named(letters, OTHERS));
        assert_eq!(rt; found, wanted, "at {c}");
    }
}

//! The edges of each category, as CPython answers.

use py_base::*;

// The numbers of the categories by name, as `re._constants` has them.
#[test]
fn numbers(rt: HostRuntime) {
    assert_eq!(rt; ASCII, [0, 1, 2, 3, 4, 5, 6, 7]);
    assert_eq!(rt; UNICODE, [10, 11, 12, 13, 14, 15, 16, 17]);
}

const ASCII: [u32; 8] = [
    CATEGORY_DIGIT,
    CATEGORY_NOT_DIGIT,
    CATEGORY_SPACE,
    CATEGORY_NOT_SPACE,
    CATEGORY_WORD,
    CATEGORY_NOT_WORD,
    CATEGORY_LINEBREAK,
    CATEGORY_NOT_LINEBREAK,
];

const UNICODE: [u32; 8] = [
    CATEGORY_UNI_DIGIT,
    CATEGORY_UNI_NOT_DIGIT,
    CATEGORY_UNI_SPACE,
    CATEGORY_UNI_NOT_SPACE,
    CATEGORY_UNI_WORD,
    CATEGORY_UNI_NOT_WORD,
    CATEGORY_UNI_LINEBREAK,
    CATEGORY_UNI_NOT_LINEBREAK,
];

// A category, a number, and whether it holds it. The next category is its complement.
const CATEGORIES: [(u32, u32, bool); 61] = [
    (CATEGORY_DIGIT, 0x2F, false),
    (CATEGORY_DIGIT, 0x30, true),
    (CATEGORY_DIGIT, 0x39, true),
    (CATEGORY_DIGIT, 0x3A, false),
    (CATEGORY_DIGIT, 0x660, false),
    (CATEGORY_DIGIT, 0xD800, false),
    (CATEGORY_SPACE, 0x8, false),
    (CATEGORY_SPACE, 0x9, true),
    (CATEGORY_SPACE, 0xD, true),
    (CATEGORY_SPACE, 0xE, false),
    (CATEGORY_SPACE, 0x1F, false),
    (CATEGORY_SPACE, 0x20, true),
    (CATEGORY_SPACE, 0x21, false),
    (CATEGORY_SPACE, 0xA0, false),
    (CATEGORY_SPACE, 0xD800, false),
    (CATEGORY_WORD, 0x2F, false),
    (CATEGORY_WORD, 0x30, true),
    (CATEGORY_WORD, 0x39, true),
    (CATEGORY_WORD, 0x3A, false),
    (CATEGORY_WORD, 0x40, false),
    (CATEGORY_WORD, 0x41, true),
    (CATEGORY_WORD, 0x5A, true),
    (CATEGORY_WORD, 0x5B, false),
    (CATEGORY_WORD, 0x5E, false),
    (CATEGORY_WORD, 0x5F, true),
    (CATEGORY_WORD, 0x60, false),
    (CATEGORY_WORD, 0x61, true),
    (CATEGORY_WORD, 0x7A, true),
    (CATEGORY_WORD, 0x7B, false),
    (CATEGORY_WORD, 0xE9, false),
    (CATEGORY_WORD, 0xD800, false),
    (CATEGORY_LINEBREAK, 0x9, false),
    (CATEGORY_LINEBREAK, 0xA, true),
    (CATEGORY_LINEBREAK, 0xB, false),
    (CATEGORY_LINEBREAK, 0xD800, false),
    (CATEGORY_UNI_DIGIT, 0x2F, false),
    (CATEGORY_UNI_DIGIT, 0x30, true),
    (CATEGORY_UNI_DIGIT, 0x39, true),
    (CATEGORY_UNI_DIGIT, 0x3A, false),
    (CATEGORY_UNI_DIGIT, 0x660, true),
    (CATEGORY_UNI_DIGIT, 0xB2, false),
    (CATEGORY_UNI_DIGIT, 0xD800, false),
    (CATEGORY_UNI_SPACE, 0x1B, false),
    (CATEGORY_UNI_SPACE, 0x1C, true),
    (CATEGORY_UNI_SPACE, 0x20, true),
    (CATEGORY_UNI_SPACE, 0xA0, true),
    (CATEGORY_UNI_SPACE, 0x3000, true),
    (CATEGORY_UNI_SPACE, 0xD800, false),
    (CATEGORY_UNI_WORD, 0x5E, false),
    (CATEGORY_UNI_WORD, 0x5F, true),
    (CATEGORY_UNI_WORD, 0x60, false),
    (CATEGORY_UNI_WORD, 0xE9, true),
    (CATEGORY_UNI_WORD, 0xB2, true),
    (CATEGORY_UNI_WORD, 0xD800, false),
    (CATEGORY_UNI_LINEBREAK, 0x9, false),
    (CATEGORY_UNI_LINEBREAK, 0xA, true),
    (CATEGORY_UNI_LINEBREAK, 0xD, true),
    (CATEGORY_UNI_LINEBREAK, 0x1F, false),
    (CATEGORY_UNI_LINEBREAK, 0x85, true),
    (CATEGORY_UNI_LINEBREAK, 0x2029, true),
    (CATEGORY_UNI_LINEBREAK, 0xD800, false),
];

// Whether the category holds the number, where there is such a category.
fn held(k: u32, c: u32) -> Option<bool> {
    if is_category(k) {
        Some(category(k, c))
    } else {
        None
    }
}

#[test]
fn categories(rt: HostRuntime) {
    for (k, c, wanted) in &CATEGORIES {
        let found = [held(*k, *c), held(k.saturating_add(1), *c)];
        assert_eq!(rt;
            found,
            [Some(*wanted), Some(!*wanted)],
            "category {k} of {c}"
        );
    }
}

#[test]
fn no_categories(rt: HostRuntime) {
    assert_eq!(rt; [8, 9, 18, u32::MAX].map(|k| is_category(k)), [false; 4]);
}

//! Codes of each kind of node, and words that are none, as the code grammar has them.

use sre_code::{CodeError, decode};

// The words spell a tree, and are kept.
const CODES: [(&[u32], usize); 23] = [
    // nothing, alone and after a block whose words would be nodes elsewhere
    (&[1], 0),
    (&[14, 1, 1], 0),
    (&[14, 3, 9, 9, 16, 97, 1], 0),
    // `x*`, `x*?`, `x*+`
    (&[24, 6, 0, 4294967295, 16, 120, 1, 1], 0),
    (&[26, 6, 0, 4294967295, 16, 120, 1, 1], 0),
    (&[29, 6, 0, 4294967295, 16, 120, 1, 1], 0),
    // `(?:ab){2,3}`, lazy, possessive
    (&[23, 7, 2, 3, 16, 97, 16, 98, 18, 1], 0),
    (&[23, 7, 2, 3, 16, 97, 16, 98, 19, 1], 0),
    (&[28, 7, 2, 3, 16, 97, 16, 98, 1, 1], 0),
    // `a|ab`, `(a)|b`, a branch with one alternative, and a branch in a branch
    (&[7, 5, 16, 97, 15, 9, 7, 16, 97, 16, 98, 15, 2, 0, 1], 0),
    (
        &[7, 9, 17, 0, 16, 97, 17, 1, 15, 7, 5, 16, 98, 15, 2, 0, 1],
        1,
    ),
    (&[7, 3, 15, 2, 0, 1], 0),
    (&[7, 9, 7, 3, 15, 2, 0, 2, 15, 5, 3, 15, 2, 0, 3, 1], 0),
    // `(a)(?(1)b|c)`, and without a second part
    (
        &[17, 0, 16, 97, 17, 1, 12, 0, 6, 16, 98, 15, 3, 16, 99, 1],
        1,
    ),
    (&[17, 0, 16, 97, 17, 1, 12, 0, 4, 16, 98, 3, 1], 1),
    (&[12, 0, 2, 1], 1),
    // a back reference, an anchor, an atomic group, lookahead and lookbehind
    (&[11, 1, 6, 7, 27, 4, 16, 97, 1, 1], 2),
    (&[4, 5, 0, 16, 97, 1, 5, 4, 1, 2, 1, 1], 0),
    (&[0, 2, 3, 20, 10, 1], 0),
    // `[^a-c\d]`, and a range that holds nothing
    (&[13, 8, 21, 22, 97, 99, 8, 10, 0, 1], 0),
    (&[13, 5, 22, 99, 97, 0, 1], 0),
    (&[13, 11, 9, 0, 1, 2, 3, 4, 5, 6, 7, 0, 1], 0),
    (&[13, 2, 0, 1], 0),
];

#[test]
fn codes(rt: HostRuntime) -> Result<(), CodeError> {
    for (words, groups) in &CODES {
        let code = decode(rt.alloc(), words, *groups)?;
        assert_eq!(rt; (code.words(), code.groups()), (*words, *groups));
    }
    Ok(())
}

// The words spell no tree for so many groups.
const NO_CODES: [(&[u32], usize); 24] = [
    (&[], 0),
    (&[1, 1], 0),
    (&[16, 97], 0),
    (&[1], 65536),
    (&[14, 0, 1], 0),
    (&[14, 4, 1, 1], 0),
    (&[25, 1], 0),
    (&[24, 5, 0, 1, 16, 120, 1, 1], 0),
    (&[24, 6, 2, 1, 16, 120, 1, 1], 0),
    (&[24, 8, 0, 1, 16, 120, 16, 120, 1, 1], 0),
    (&[23, 7, 2, 3, 16, 97, 16, 98, 1, 1], 0),
    (&[17, 0, 16, 97, 17, 1, 1], 0),
    (&[17, 0, 16, 97, 17, 3, 1], 2),
    (&[17, 1, 16, 97, 17, 2, 1], 2),
    (&[11, 2, 1], 2),
    (&[6, 8, 1], 0),
    (&[13, 4, 8, 8, 0, 1], 0),
    (&[13, 3, 0, 1], 0),
    // a branch without an alternative, with a wrong skip, jump or end
    (&[7, 0, 1], 0),
    (&[7, 5, 16, 97, 15, 8, 7, 16, 97, 16, 98, 15, 2, 0, 1], 0),
    (&[7, 5, 16, 97, 15, 9, 6, 16, 97, 16, 98, 15, 2, 0, 1], 0),
    (&[7, 5, 16, 97, 15, 9, 7, 16, 97, 16, 98, 15, 3, 0, 1], 0),
    // a conditional on a group that is none, and one with a jump too short
    (&[12, 1, 4, 16, 98, 1], 1),
    (&[12, 0, 6, 16, 98, 15, 2, 16, 99, 1], 1),
];

#[test]
fn no_codes(rt: HostRuntime) {
    for (words, groups) in &NO_CODES {
        let error = decode(rt.alloc(), words, *groups).err();
        assert_eq!(rt;
            error,
            Some(CodeError::InvalidCode),
            "{words:?} for {groups}"
        );
    }
}

//! How many tokens a pattern has, and where the grammar has none.

use re_parse::{Lexed, Token, next_token};
use re_tree::TextFlags;
use std::alloc::{AllocError, Global};

const FLAGS: TextFlags = TextFlags {
    ascii: false,
    multiline: false,
    dotall: false,
};

// The characters of a text.
fn characters(alloc: Global, text: &str) -> Result<Vec<char>, AllocError> {
    let mut all = Vec::new(alloc);
    for c in text.chars() {
        all.push(c)?;
    }
    Ok(all)
}

// How many tokens a text is made of, or none where it is made of none.
fn count(alloc: Global, text: &[char]) -> Result<Option<usize>, AllocError> {
    let mut rest = text;
    for tokens in 0..text.len() {
        let at = text.len().saturating_sub(rest.len());
        match next_token(alloc, FLAGS, at, rest)? {
            Lexed::End => return Ok(Some(tokens)),
            Lexed::NoToken => return Ok(None),
            Lexed::Token(_token, after) => rest = after,
        }
    }
    Ok(Some(text.len()))
}

fn counted(alloc: Global, text: &str) -> Result<Option<usize>, AllocError> {
    let all = characters(alloc, text)?;
    count(alloc, &all)
}

// Each atom, count and parenthesis of CPython's documentation of `re` is one token.
#[test]
fn tokens(rt: HostRuntime) -> Result<(), AllocError> {
    assert_eq!(rt;
        [
            counted(rt.alloc(), r"(\d+)-(?P<u>[a-z]+)")?,
            counted(rt.alloc(), r"a{2,3}?x{,y\x41\b")?,
            counted(rt.alloc(), r"(?<=\u0061)[]-a^](?(1)b|c)(?P=n)")?,
        ],
        [Some(9), Some(8), Some(10)]
    );
    Ok(())
}

#[test]
fn no_tokens(rt: HostRuntime) -> Result<(), AllocError> {
    assert_eq!(rt;
        [
            counted(rt.alloc(), r"a\q")?,
            counted(rt.alloc(), r"\127")?,
            counted(rt.alloc(), r"[b-a]")?,
            counted(rt.alloc(), r"(?x)")?,
        ],
        [None, None, None, None]
    );
    Ok(())
}

// A count whose number has a million digits.
#[test]
fn long(rt: HostRuntime) -> Result<(), AllocError> {
    let mut text = characters(rt.alloc(), "a{")?;
    for _ in 0..1_000_000 {
        text.push('7')?;
    }
    text.push('}')?;
    assert_eq!(rt; count(rt.alloc(), &text)?, Some(2));
    Ok(())
}

// The bounds of a count, where 32 bits hold them.
fn bounds_of(token: &Token) -> (Option<u32>, Option<u32>) {
    match token {
        Token::Count(_, least, Some(most), _) => (least.to_u32(), most.to_u32()),
        _ => (None, None),
    }
}

// The bounds of the count that comes first.
fn bounds(alloc: Global, text: &str) -> Result<(Option<u32>, Option<u32>), AllocError> {
    let all = characters(alloc, text)?;
    match next_token(alloc, FLAGS, 0, &all)? {
        Lexed::Token(token, _) => Ok(bounds_of(&token)),
        _ => Ok((None, None)),
    }
}

#[test]
fn bounds_of_counts(rt: HostRuntime) -> Result<(), AllocError> {
    assert_eq!(rt;
        [
            bounds(rt.alloc(), "{007,4294967295}")?,
            bounds(rt.alloc(), "{4294967296,8}")?,
            bounds(rt.alloc(), "?")?,
        ],
        [
            (Some(7), Some(4294967295)),
            (None, Some(8)),
            (Some(0), Some(1))
        ]
    );
    Ok(())
}

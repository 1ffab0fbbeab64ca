//! Worked rows of every node kind.

ghost use Rattle.std.specs.Prelude.{◌<◌};

use super::is_answered;
use std::alloc::{AllocError, Global};
use std::test::Fail;

const ANSWERED: [(&str, &str); 22] = [
    // x*
    (
        "pattern t\ncode 24 6 0 4294967295 16 120 1 1\ngroups 0\nlimit 0\nlist t2d\nsubject t61627864\n",
        "t2d612d622d2d642d 5\n",
    ),
    // \d+
    (
        "pattern t\ncode 24 9 1 4294967295 13 4 8 10 0 1 1\ngroups 0\nlimit 0\nlist t23\nsubject t474554202f612f31373f783d32303320485454502f312e31\n",
        "t474554202f612f233f783d2320485454502f232e23 4\n",
    ),
    // a|ab
    (
        "pattern t\ncode 7 5 16 97 15 9 7 16 97 16 98 15 2 0 1\ngroups 0\nlimit 0\nlist t58\nsubject t6162\n",
        "t5862 1\n",
    ),
    // (a)|b
    (
        "pattern t\ncode 7 9 17 0 16 97 17 1 15 7 5 16 98 15 2 0 1\ngroups 1\nlimit 0\nlist t3c i1 t3e\nsubject t6162\n",
        "t3c613e3c3e 2\n",
    ),
    // (a)x|a
    (
        "pattern t\ncode 7 11 17 0 16 97 17 1 16 120 15 7 5 16 97 15 2 0 1\ngroups 1\nlimit 0\nlist t3c i1 t3e\nsubject t61\n",
        "t3c3e 1\n",
    ),
    // an empty body repeated
    (
        "pattern t\ncode 23 3 0 4294967295 18 1\ngroups 0\nlimit 0\nlist t2d\nsubject t6162\n",
        "t2d612d622d 3\n",
    ),
    // |a
    (
        "pattern t\ncode 7 3 15 7 5 16 97 15 2 0 1\ngroups 0\nlimit 0\nlist t2d\nsubject t61\n",
        "t2d2d2d 3\n",
    ),
    // [^a-c]
    (
        "pattern t\ncode 13 6 21 22 97 99 0 1\ngroups 0\nlimit 0\nlist t5f\nsubject t6131632e\n",
        "t615f635f 2\n",
    ),
    // two to three units
    (
        "pattern t\ncode 23 4 2 3 3 18 1\ngroups 0\nlimit 0\nlist t58\nsubject t6162636465\n",
        "t5858 2\n",
    ),
    // a(?=b)
    (
        "pattern t\ncode 16 97 4 5 0 16 98 1 1\ngroups 0\nlimit 0\nlist t58\nsubject t61626163\n",
        "t58626163 1\n",
    ),
    // (?<=a)b
    (
        "pattern t\ncode 4 5 1 16 97 1 16 98 1\ngroups 0\nlimit 0\nlist t58\nsubject t61626262\n",
        "t61586262 1\n",
    ),
    // a(?!b)
    (
        "pattern t\ncode 16 97 5 5 0 16 98 1 1\ngroups 0\nlimit 0\nlist t58\nsubject t61626163\n",
        "t61625863 1\n",
    ),
    // a+?
    (
        "pattern t\ncode 26 6 1 4294967295 16 97 1 1\ngroups 0\nlimit 0\nlist t58\nsubject t616161\n",
        "t585858 3\n",
    ),
    // a*+a
    (
        "pattern t\ncode 29 6 0 4294967295 16 97 1 16 97 1\ngroups 0\nlimit 0\nlist t58\nsubject t616161\n",
        "t616161 0\n",
    ),
    // (a|b)\1
    (
        "pattern t\ncode 17 0 7 5 16 97 15 7 5 16 98 15 2 0 17 1 11 0 1\ngroups 1\nlimit 0\nlist t3c i1 t3e\nsubject t61626261\n",
        "t613c623e61 1\n",
    ),
    // (a)?(?(1)b|c)
    (
        "pattern t\ncode 23 9 0 1 17 0 16 97 17 1 18 12 0 6 16 98 15 3 16 99 1\ngroups 1\nlimit 0\nlist t58\nsubject t61622063\n",
        "t582058 2\n",
    ),
    // \b
    (
        "pattern t\ncode 6 10 1\ngroups 0\nlimit 0\nlist t7c\nsubject t6162206364\n",
        "t7c61627c207c63647c 4\n",
    ),
    // $
    (
        "pattern t\ncode 6 5 1\ngroups 0\nlimit 0\nlist t58\nsubject t610a\n",
        "t61580a58 2\n",
    ),
    // an info block with odd contents
    (
        "pattern t\ncode 14 3 9 9 16 97 1\ngroups 0\nlimit 0\nlist t62\nsubject t6161\n",
        "t6262 2\n",
    ),
    // five empty iterations
    (
        "pattern t\ncode 23 3 5 5 18 1\ngroups 0\nlimit 0\nlist t2d\nsubject t6162\n",
        "t2d612d622d 3\n",
    ),
    // an empty repeat in a repeat
    (
        "pattern t\ncode 23 8 0 4294967295 23 3 0 4294967295 18 18 1\ngroups 0\nlimit 0\nlist t2d\nsubject t6162\n",
        "t2d612d622d 3\n",
    ),
    // group 0 is the whole span
    (
        "pattern t\ncode 16 97 1\ngroups 0\nlimit 0\nlist t3c i0 t3e\nsubject t6261\n",
        "t623c613e 1\n",
    ),
];

#[test]
fn every_kind(rt: HostRuntime) {
    for (request, line) in &ANSWERED {
        let answered = is_answered(rt.alloc(), request.as_bytes(), 0, line.as_bytes());
        assert!(rt; answered, "at {request}");
    }
}

const NO_CODES: [&str; 5] = [
    "pattern t\ncode 14 9 16 97 1\ngroups 0\nlimit 0\nlist t\nsubject t61\n",
    "pattern t\ncode 25 1\ngroups 0\nlimit 0\nlist t\nsubject t61\n",
    "pattern t\ncode 14 0 1\ngroups 0\nlimit 0\nlist t\nsubject t61\n",
    "pattern t\ncode\ngroups 0\nlimit 0\nlist t\nsubject t61\n",
    "pattern t\ncode 16 97\ngroups 0\nlimit 0\nlist t\nsubject t61\n",
];

#[test]
fn no_code(rt: HostRuntime) {
    for request in &NO_CODES {
        let answered = is_answered(rt.alloc(), request.as_bytes(), 1, b"error invalid_code\n");
        assert!(rt; answered, "at {request}");
    }
}

// As many atomic bodies around any unit.
fn nested(alloc: Global, depth: usize) -> Result<String, AllocError>
    requires { depth < 1000 }
{
    let mut words = String::new(alloc);
    for outer in 0..depth {
        let inside = 3 * (depth - outer);
        words.push_str(&format!(in alloc; " 27 {inside}")?)?;
    }
    let ends = " 1".repeat(alloc, depth)?;
    format!(in alloc;
        "pattern t\ncode{words} 3{ends} 1\ngroups 0\nlimit 0\nlist t58\nsubject t6162\n"
    )
}

#[test]
fn deep(rt: HostRuntime) -> Result<(), Fail> {
    for (depth, status, line) in [(200, 0, "t5858 2\n"), (201, 1, "error invalid_code\n")] {
        let request = nested(rt.alloc(), depth)?;
        let answered = is_answered(rt.alloc(), request.as_bytes(), status, line.as_bytes());
        assert!(rt; answered, "at {depth}");
    }
    Ok(())
}

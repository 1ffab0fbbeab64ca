//! Requests and their answers.

use super::{FIRST, is_answered};

// Requests, the status of each, and what is written.
const ROWS: [(&str, u8, &str); 11] = [
    (FIRST, 0, "t626261 2\n"),
    (
        "pattern t61\ncode 16 97 1\ngroups 0\nlimit 0\nlist t62\nsubject t616161\n",
        0,
        "t626262 3\n",
    ),
    (
        "pattern t61\ncode 16 4294967295 1\ngroups 0\nlimit 18446744073709551615\nlist t62\nsubject t616161\n",
        0,
        "t616161 0\n",
    ),
    (
        "pattern t612e\ncode 16 97 3 1\ngroups 0\nlimit 0\nlist t58\nsubject t61626163\n",
        0,
        "t5858 2\n",
    ),
    (
        "pattern tc3a9\ncode 16 233 1\ngroups 0\nlimit 0\nlist t65\nsubject t6ec3a965\n",
        0,
        "t6e6565 1\n",
    ),
    (
        "pattern tc3a9\ncode 14 2 9 16 233 1\ngroups 0\nlimit 0\nlist t65\nsubject t6ec3a965\n",
        0,
        "t6e6565 1\n",
    ),
    (
        "pattern t\ncode 1\ngroups 0\nlimit 0\nlist t2d\nsubject t\n",
        0,
        "t2d 1\n",
    ),
    (
        "pattern t\ncode 1\ngroups 0\nlimit 0\nlist t2d\nsubject t6162\n",
        0,
        "t2d612d622d 3\n",
    ),
    (
        "pattern t61\ncode 16 97\ngroups 0\nlimit 2\nlist t62\nsubject t616161\n",
        1,
        "error invalid_code\n",
    ),
    (
        "pattern t61\ncode 16 97 1\ngroups 65536\nlimit 2\nlist t62\nsubject t616161\n",
        1,
        "error invalid_code\n",
    ),
    (
        "pattern t61\ncode 14 0 16 97 1\ngroups 0\nlimit 2\nlist t62\nsubject t616161\n",
        1,
        "error invalid_code\n",
    ),
];

#[test]
fn rows(rt: HostRuntime) {
    for (request, status, line) in &ROWS {
        let answered = is_answered(rt.alloc(), request.as_bytes(), *status, line.as_bytes());
        assert!(rt; answered, "at {request}");
    }
}

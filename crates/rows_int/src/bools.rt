//! Bools.

use crate::values::int;
use py_int::PyBool;

#[test]
fn bools(rt: HostRuntime) {
    let yes = PyBool::new(true);
    let no = PyBool::new(false);
    assert_eq!(rt;
        (
            [yes.as_int(), no.as_int()],
            [yes.and(no), yes.or(no), yes.xor(yes)],
            [yes.value(), no.value()],
            [yes.repr(), no.repr()]
        ),
        (
            [int(1), int(0)],
            [no, yes, no],
            [true, false],
            ["True", "False"]
        )
    );
}

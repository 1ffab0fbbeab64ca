//! Copies of a value of each class.

use crate::made::{Step, built};
use py_base::PyError;
use py_value::{NoHost, repr_of};

/// The steps that make a value of each class, and the repr of its copy.
const COPIES: [([Step; 3], &str); 9] = [
    ([Step::None, Step::None, Step::None], "None"),
    ([Step::None, Step::None, Step::Bool(true)], "True"),
    ([Step::None, Step::None, Step::Int(-5)], "-5"),
    ([Step::None, Step::None, Step::Str("é")], "'é'"),
    (
        [Step::None, Step::None, Step::Bytes("a\u{ff}")],
        "b'a\\xff'",
    ),
    ([Step::None, Step::Int(1), Step::Tuple(1)], "(1,)"),
    ([Step::None, Step::Int(2), Step::List(1)], "[2]"),
    ([Step::Str("é"), Step::Int(1), Step::Dict(1)], "{1: 'é'}"),
    ([Step::None, Step::None, Step::Handle(7)], "<object 7>"),
];

#[test]
fn a_copy_of_each_class(rt: HostRuntime) -> Result<(), PyError> {
    let alloc = rt.alloc();
    for (steps, is) in &COPIES {
        let copy = built(alloc, steps)?.try_clone(alloc)?;
        let printed = repr_of(alloc, &mut NoHost, &copy)?;
        assert_eq!(rt; printed.as_str(), *is);
    }
    Ok(())
}

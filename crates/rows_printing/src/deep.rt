//! Values deep inside one another.

use crate::made::nested;
use py_base::PyError;
use py_value::{NoHost, ascii_of, repr_of, str_of};

#[test]
fn two_hundred_are_printed(rt: HostRuntime) -> Result<(), PyError> {
    let alloc = rt.alloc();
    let value = nested(alloc, 200)?;
    let printed = [
        repr_of(alloc, &mut NoHost, &value)?.len(),
        str_of(alloc, &mut NoHost, &value)?.len(),
        ascii_of(alloc, &mut NoHost, &value)?.len(),
    ];
    assert_eq!(rt; printed, [400, 400, 400]);
    Ok(())
}

#[test]
fn one_more_is_too_deep(rt: HostRuntime) -> Result<(), PyError> {
    let alloc = rt.alloc();
    let value = nested(alloc, 201)?;
    let refused = (
        repr_of(alloc, &mut NoHost, &value),
        str_of(alloc, &mut NoHost, &value),
        ascii_of(alloc, &mut NoHost, &value),
    );
    assert!(rt;
        matches!(
            refused,
            (
                Err(PyError::TooDeep),
                Err(PyError::TooDeep),
                Err(PyError::TooDeep)
            )
        )
    );
    Ok(())
}

#[test]
fn a_million_are_too_deep(rt: HostRuntime) -> Result<(), PyError> {
    let alloc = rt.alloc();
    let value = nested(alloc, 1_000_000)?;
    let refused = repr_of(alloc, &mut NoHost, &value);
    let fits = [value.fits_depth(999), value.fits_depth(200)];
    assert!(rt; matches!(refused, Err(PyError::TooDeep)) && fits == [false, false]);
    Ok(())
}

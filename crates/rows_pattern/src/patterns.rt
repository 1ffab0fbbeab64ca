//! Patterns, names, and flags.

use bitflags::Flags;
use py_base::PyError;
use py_sre::{
    GroupIndex, GroupNames, PatternSource, SreFlag, ascii_iscased, compile, getcodesize,
    pattern_ref,
};
use py_text::{PyBytes, PyStr};

// `(a)|b`.
const A_OR_B: [u32; 17] = [7, 9, 17, 0, 16, 97, 17, 1, 15, 7, 5, 16, 98, 15, 2, 0, 1];

#[test]
fn numbers_and_letters(rt: HostRuntime) {
    assert_eq!(rt; getcodesize(), 4);
    assert_eq!(rt; (ascii_iscased(65), ascii_iscased(122)), (true, true));
    assert_eq!(rt;
        (ascii_iscased(91), ascii_iscased(-1), ascii_iscased(225)),
        (false, false, false)
    );
    assert_eq!(rt; (SreFlag::ASCII | SreFlag::IGNORECASE).bits(), 258);
}

#[test]
fn names(rt: HostRuntime) -> Result<(), PyError> {
    let alloc = rt.alloc();
    let mut index = GroupIndex::new(alloc);
    index.insert(PyStr::copy_of(alloc, "a")?, 1)?;
    index.insert(PyStr::copy_of(alloc, "b")?, 2)?;
    index.insert(PyStr::copy_of(alloc, "a")?, 3)?;
    assert_eq!(rt; index.len(), 2);
    assert!(rt; matches!(index.entry(0), Some((name, 3)) if name.as_str() == "a"));
    let mut names = GroupNames::new(alloc);
    names.push(None)?;
    names.push(Some(PyStr::copy_of(alloc, "a")?))?;
    assert_eq!(rt; (names.len(), names.get(0).is_some()), (2, false));
    assert!(rt; matches!(names.get(1), Some(name) if name.as_str() == "a"));
    Ok(())
}

#[test]
fn a_pattern(rt: HostRuntime) -> Result<(), PyError> {
    let alloc = rt.alloc();
    let source = PatternSource::Bytes(PyBytes::copy_of(alloc, b"(a)|b")?);
    let names = GroupNames::new(alloc);
    let made = compile(
        alloc,
        source,
        0xFFFF,
        &A_OR_B,
        1,
        GroupIndex::new(alloc),
        names,
    )?;
    let made = pattern_ref(alloc, made)?;
    assert_eq!(rt;
        (made.flags(), made.groups(), made.isbytes()),
        (0x1FF, 1, true)
    );
    assert!(rt; made.code() == A_OR_B.as_slice());
    assert!(rt; matches!(made.pattern(), PatternSource::Bytes(_)));
    assert_eq!(rt; (made.groupindex().len(), made.indexgroup().len()), (0, 0));
    Ok(())
}

#[test]
fn words_that_are_no_code(rt: HostRuntime) {
    let alloc = rt.alloc();
    let names = GroupNames::new(alloc);
    let index = GroupIndex::new(alloc);
    let error = match compile(alloc, PatternSource::None, 0, &[16, 97], 0, index, names) {
        Ok(_) => None,
        Err(error) => Some(error),
    };
    assert_eq!(rt; error, Some(PyError::InvalidCode));
}

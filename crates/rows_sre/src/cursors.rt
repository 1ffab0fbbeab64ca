//! What cursors read, forwards and backwards, over each view.

ghost use Rattle.std.specs.Prelude.{◌≡◌, ◌<◌, length};

use py_base::Steps;
use py_text::PyStr;
use sre_code::{Checked, decode};
use sre_match::{
    ByteView, MatchError, MeteredView, Request, State, StrDrive, TextView, metered_search,
};
use std::alloc::Global;
use std::marker::Brand;
use std::sync::ledger::{Blank, Ledger};
use std::test::Fail;

// The units of a view of three, of which the last one is read backwards.
fn three_units<S: StrDrive, L: Ledger>(view: &S, steps: &mut Steps<L>) -> [u32; 3]
    requires counter { S.counts L.name }
    requires three { length (S.units view.now) ≡ 3 }
{
    let mut cursor = view.create_cursor(0);
    view.skip(&mut cursor, 3);
    let last = view.back_peek(&cursor, steps);
    view.back_skip(&mut cursor, 3);
    let first = view.peek(&cursor, steps);
    view.skip(&mut cursor, 1);
    [first, view.peek(&cursor, steps), last]
}

// The same of a text, and of bytes, over a new counter of steps.
fn read_by<L: Ledger>(text: &PyStr, blank: Blank) -> [[u32; 3]; 2]
    requires three { length text.now ≡ 3 }
    requires name { blank.name ≡ L.name }
    requires parts { blank.parts ≡ L.parts }
    requires some { 0 < L.parts }
{
    let mut steps = Steps::<L>::new(blank);
    let of_text = three_units(&TextView::new(text), &mut steps);
    [of_text, three_units(&ByteView::new(b"abc"), &mut steps)]
}

fn read(text: &PyStr) -> Option<[[u32; 3]; 2]> {
    if text.len() != 3 {
        return None;
    }
    Some(read_by::<Brand>(text, Blank::new(1)))
}

#[test]
fn cursors(rt: HostRuntime) -> Result<(), Fail> {
    let text = PyStr::copy_of(rt.alloc(), "é😀a")?;
    let wanted = [[233, 128512, 97], [97, 98, 99]];
    assert_eq!(rt; read(&text), Some(wanted));
    Ok(())
}

// The span that a search finds in bytes that one counter alone can read.
fn metered_by<L: Ledger>(
    alloc: Global,
    code: &Checked,
    bytes: &[u8],
    blank: Blank,
) -> Result<(bool, usize, usize), MatchError>
    requires name { blank.name ≡ L.name }
    requires parts { blank.parts ≡ L.parts }
    requires some { 0 < L.parts }
{
    let mut steps = Steps::<L>::new(blank);
    let view = MeteredView::<L>::new(bytes);
    let request = Request::new(view, 0, bytes.len(), code, false);
    let mut state = State::new(alloc);
    let found = metered_search(&mut state, &request, &mut steps)?;
    Ok((found, state.start(), state.position()))
}

fn metered(alloc: Global, code: &Checked) -> Result<(bool, usize, usize), MatchError> {
    metered_by::<Brand>(alloc, code, b"ba", Blank::new(1))
}

#[test]
fn metered_bytes(rt: HostRuntime) -> Result<(), Fail> {
    let code = decode(rt.alloc(), &[16, 97, 1], 0)?;
    assert_eq!(rt; metered(rt.alloc(), &code)?, (true, 1, 2));
    Ok(())
}

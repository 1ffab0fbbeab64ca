//! The window of a text that a search looks at.

ghost use Rattle.std.specs.Prelude.{◌≡◌, ◌<◌, ◌≤◌, MatchOption};
ghost use Rattle.py_text.specs.Window.{counted_place, window_start, window_end};

// The place, counted from the end of `len` code points where it is negative; None past `len`.
fn place_within(len: usize, place: i128) -> Option<usize>
    ensures { MatchOption result (len < counted_place len place) (λ a.
        (a ≡ counted_place len place) × (a ≤ len)) }
{
    if place < 0 {
        let back = place.unsigned_abs();
        if back < len as u128 {
            Some(len - back as usize)
        } else {
            Some(0)
        }
    } else if place <= len as i128 {
        Some(place as usize)
    } else {
        None
    }
}

/// Where the window of `len` code points begins and ends, in code points; None where it begins
/// past its end.
pub(crate) fn window_of(
    len: usize,
    start: Option<i128>,
    end: Option<i128>,
) -> Option<(usize, usize)>
    ensures { MatchOption result (window_end len end < window_start len start) (λ w.
        (w.0 ≡ window_start len start)
        × (w.1 ≡ window_end len end) × (w.0 ≤ w.1) × (w.1 ≤ len)) }
{
    let to = match end {
        Some(place) => match place_within(len, place) {
            Some(to) => to,
            None => len,
        },
        None => len,
    };
    let from = match start {
        Some(place) => place_within(len, place)?,
        None => 0,
    };
    if from <= to { Some((from, to)) } else { None }
}

//! Where code points begin in a text, by its bytes.

ghost use Rattle.std.specs.Prelude.{◌≡◌, ◌≤◌, ◌<◌, ◌+◌, ◌-◌, true, length, take, drop, slice_index, slice_get, slice_range, chars, Some};
ghost use Rattle.std.specs.Str.{IsCharBoundary};
ghost use Rattle.py_text.specs.Points as spec;
ghost use Rattle.py_text.specs.Text.{all_ascii};

// How many bytes are counted at once: below 256, so that a byte holds their count.
const BLOCK: usize = 192;

// How many bytes are counted at once close to a place.
const STEP: usize = 32;

// Whether a code point begins with the byte.
#[inline(always)]
fn is_start(byte: u8) -> bool
    ensures { result ≡ spec.is_start byte }
{
    byte < 0x80 || byte >= 0xC0
}

// How many code points begin in a few bytes.
#[inline(always)]
fn starts_in_block(block: &[u8]) -> u8
    requires { length block.now < 256 }
    ensures { result ≡ spec.starts_in block.now }
{
    let mut count = 0;
    for byte in block {
        count += u8::from(is_start(*byte));
    }
    count
}

// How many code points begin in the bytes.
fn starts_in(bytes: &[u8]) -> usize
    ensures { result ≡ spec.starts_in bytes.now }
{
    let mut rest = bytes;
    let mut count = 0;
    'walk: while rest.len() > BLOCK {
        let (block, tail) = rest.split_at(BLOCK);
        count += usize::from(starts_in_block(block));
        rest = tail;
    }
    count + usize::from(starts_in_block(rest))
}

/// How many code points there are.
pub(crate) fn count_points(text: &str) -> usize
    ensures { result ≡ length (chars text.now) }
{
    starts_in(text.as_bytes())
}

/// How many code points a part of a text has. With `ascii` all are ASCII, and nothing is counted.
pub(crate) fn count_of_part(part: &str, ascii: bool) -> usize
    requires { ascii ≡ true → all_ascii (chars part.now) ≡ true }
    ensures { result ≡ length (chars part.now) }
{
    if ascii {
        part.len()
    } else {
        count_points(part)
    }
}

// A walk on from the byte `at`, `size` bytes at a time, while at most `left` code points begin in
// them: where it ends, and how many of those are left.
#[inline(always)]
fn walk_on(bytes: &[u8], at: usize, left: usize, size: usize) -> (usize, usize)
    requires inside { at ≤ length bytes.now }
    requires some { 0 < size }
    requires few { size < 256 }
    ensures inside { result.0 ≤ length bytes.now }
    ensures count { spec.starts_in (take result.0 bytes.now) + result.1
        ≡ spec.starts_in (take at bytes.now) + left }
{
    let mut place = at;
    let mut more = left;
    'walk: while bytes.len() - place >= size {
        let starts = usize::from(starts_in_block(&bytes[place..place + size]));
        if starts > more {
            break;
        }
        more -= starts;
        place += size;
    }
    (place, more)
}

// A byte not past the code point at the place `n`, and how many code points are between.
fn near_before(bytes: &[u8], n: usize) -> (usize, usize)
    ensures inside { result.0 ≤ length bytes.now }
    ensures count { spec.starts_in (take result.0 bytes.now) + result.1 ≡ n }
{
    let (at, left) = walk_on(bytes, 0, n, BLOCK);
    walk_on(bytes, at, left, STEP)
}

// How many bytes are before the code point at the place `n`.
fn bytes_before(bytes: &[u8], n: usize) -> usize
    requires { n ≤ spec.starts_in bytes.now }
    ensures inside { result ≤ length bytes.now }
    ensures count { spec.starts_in (take result bytes.now) ≡ n }
    ensures start { result < length bytes.now →
        spec.is_start (slice_index bytes.now result) ≡ true }
{
    let (mut at, mut left) = near_before(bytes, n);
    'bytes: while at < bytes.len() {
        if is_start(bytes[at]) {
            if left == 0 {
                return at;
            }
            left -= 1;
        }
        at += 1;
    }
    at
}

// A walk back from the byte `at`, `size` bytes at a time, while fewer than `left` code points begin
// in them: where it ends, and how many of those are left.
#[inline(always)]
fn walk_back(bytes: &[u8], at: usize, left: usize, size: usize) -> (usize, usize)
    requires inside { at ≤ length bytes.now }
    requires some { 0 < size }
    requires few { size < 256 }
    ensures inside { result.0 ≤ length bytes.now }
    ensures count { spec.starts_in (drop result.0 bytes.now) + result.1
        ≡ spec.starts_in (drop at bytes.now) + left }
    ensures end { result.1 ≡ 0 → (left ≡ 0) × (result.0 ≡ at) }
{
    let mut place = at;
    let mut more = left;
    'walk: while place >= size {
        let starts = usize::from(starts_in_block(&bytes[place - size..place]));
        if starts >= more {
            break;
        }
        more -= starts;
        place -= size;
    }
    (place, more)
}

// A byte past the beginning of the last `n` code points, and how many of them begin before it.
fn near_before_last(bytes: &[u8], n: usize) -> (usize, usize)
    ensures inside { result.0 ≤ length bytes.now }
    ensures count { spec.starts_in (drop result.0 bytes.now) + result.1 ≡ n }
    ensures end { result.1 ≡ 0 → result.0 ≡ length bytes.now }
{
    let (at, left) = walk_back(bytes, bytes.len(), n, BLOCK);
    walk_back(bytes, at, left, STEP)
}

// How many bytes are before the last `n` code points.
fn bytes_before_last(bytes: &[u8], n: usize) -> usize
    requires { n ≤ spec.starts_in bytes.now }
    ensures inside { result ≤ length bytes.now }
    ensures count { spec.starts_in (drop result bytes.now) ≡ n }
    ensures start { result < length bytes.now →
        spec.is_start (slice_index bytes.now result) ≡ true }
{
    let (mut at, mut left) = near_before_last(bytes, n);
    'bytes: while left > 0 {
        at -= 1;
        if is_start(bytes[at]) {
            left -= 1;
        }
    }
    at
}

/// How many bytes the first `n` code points take, of a text of `count` ones, found from the nearer
/// end.
pub(crate) fn offset_in(s: &str, count: usize, n: usize) -> usize
    requires counted { count ≡ length (chars s.now) }
    requires inside { n ≤ count }
    ensures place { IsCharBoundary s.now result }
    ensures before { chars (take result s.now) ≡ take n (chars s.now) }
    ensures after { chars (drop result s.now) ≡ drop n (chars s.now) }
{
    if n <= count / 2 {
        offset_of(s, n)
    } else {
        offset_before(s, count - n)
    }
}

/// How many bytes the first `n` code points take.
pub(crate) fn offset_of(s: &str, n: usize) -> usize
    requires { n ≤ length (chars s.now) }
    ensures place { IsCharBoundary s.now result }
    ensures before { chars (take result s.now) ≡ take n (chars s.now) }
    ensures after { chars (drop result s.now) ≡ drop n (chars s.now) }
{
    bytes_before(s.as_bytes(), n)
}

/// How many bytes are before the last `n` code points.
fn offset_before(s: &str, n: usize) -> usize
    requires { n ≤ length (chars s.now) }
    ensures place { IsCharBoundary s.now result }
    ensures before { chars (take result s.now) ≡ take (length (chars s.now) - n) (chars s.now) }
    ensures after { chars (drop result s.now) ≡ drop (length (chars s.now) - n) (chars s.now) }
{
    bytes_before_last(s.as_bytes(), n)
}

/// The code points from `start` to `end`, of a text of `count` ones.
pub(crate) fn part_of(s: &str, count: usize, start: usize, end: usize) -> &str
    requires counted { count ≡ length (chars s.now) }
    requires order { start ≤ end }
    requires inside { end ≤ count }
    ensures { chars result.now ≡ slice_range (chars s.now) start end }
{
    let tail = &s[offset_in(s, count, start)..];
    &tail[..offset_in(tail, count - start, end - start)]
}

/// The code point at a place, of a text of `count` ones.
pub(crate) fn char_at(s: &str, count: usize, index: usize) -> char
    requires counted { count ≡ length (chars s.now) }
    requires inside { index < count }
    ensures { slice_get (chars s.now) index ≡ Some result }
{
    s[offset_in(s, count, index)..].chars().next().unwrap()
}

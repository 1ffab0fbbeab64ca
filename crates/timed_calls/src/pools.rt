//! Calls on a pool of texts, over and over, and the sum of what they give.

use py_base::PyResult;
use py_intern::StringPool;
use std::alloc::Global;

/// A call on a pool.
#[derive(Clone, Copy, Debug, PartialEq, Eq)]
pub enum PoolCall {
    Intern,
    Interned,
    InternNew,
}

impl PoolCall {
    /// The call of a name.
    pub fn of_name(name: &str) -> Option<PoolCall> {
        match name {
            "intern" => Some(PoolCall::Intern),
            "interned" => Some(PoolCall::Interned),
            "intern_new" => Some(PoolCall::InternNew),
            _ => None,
        }
    }
}

// How many places the identifier of a call is from that of the call before it. The number is prime,
// so that no identifier of a hundred thousand is left out.
const STRIDE: usize = 7919;

/// The sum over so many calls on a pool of `size` identifiers: of lengths, of places, or of how many
/// texts a new pool has.
pub fn sum(alloc: Global, call: PoolCall, size: u32, times: u32) -> PyResult<i128> {
    match call {
        PoolCall::Intern => kept(alloc, size, times),
        PoolCall::Interned => found(alloc, size, times),
        PoolCall::InternNew => filled(alloc, size, times),
    }
}

// The identifier of a number.
fn identifier(alloc: Global, number: u32) -> PyResult<String> {
    Ok(format!(in alloc; "name_{number}")?)
}

fn identifiers(alloc: Global, size: u32) -> PyResult<Vec<String>> {
    let mut names = Vec::new(alloc);
    for number in 0..size {
        names.push(identifier(alloc, number)?)?;
    }
    Ok(names)
}

// A pool of the identifiers of so many numbers.
fn pool_of(alloc: Global, size: u32) -> PyResult<StringPool> {
    let mut pool = StringPool::new(alloc);
    for number in 0..size {
        pool.intern(identifier(alloc, number)?)?;
    }
    Ok(pool)
}

// The identifier of a call, if there are any.
fn name_at(names: &[String], call: u32) -> Option<&String> {
    if names.is_empty() {
        return None;
    }
    names.get(call as usize * STRIDE % names.len())
}

// Lengths of the texts that a pool has in place of equal ones.
fn kept(alloc: Global, size: u32, times: u32) -> PyResult<i128> {
    let names = identifiers(alloc, size)?;
    let mut pool = pool_of(alloc, size)?;
    let mut sum = 0i128;
    for i in 0..times {
        if let Some(name) = name_at(&names, i) {
            let handle = pool.intern(name.as_str())?;
            sum = sum.wrapping_add(pool.text_of(handle).char_len() as i128);
        }
    }
    Ok(sum)
}

// Places of texts that a pool has.
fn found(alloc: Global, size: u32, times: u32) -> PyResult<i128> {
    let names = identifiers(alloc, size)?;
    let pool = pool_of(alloc, size)?;
    let mut sum = 0i128;
    for i in 0..times {
        if let Some(name) = name_at(&names, i) {
            sum = sum.wrapping_add(place_in(&pool, name));
        }
    }
    Ok(sum)
}

// The place of a text, or -1.
fn place_in(pool: &StringPool, name: &String) -> i128 {
    match pool.interned(name.as_str()) {
        Some(handle) => handle.place() as i128,
        None => -1,
    }
}

// How many texts new pools have, in which each text is new.
fn filled(alloc: Global, size: u32, times: u32) -> PyResult<i128> {
    let mut sum = 0i128;
    for _ in 0..times {
        let pool = pool_of(alloc, size)?;
        sum = sum.wrapping_add(pool.len() as i128);
    }
    Ok(sum)
}

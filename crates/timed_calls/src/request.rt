//! What the command line asks for: a call, the size of its text or pool, and how often it is made.

use crate::more_texts::MoreCall;
use crate::numbers::NumberCall;
use crate::pools::PoolCall;
use crate::sample_texts::Language;
use crate::searches::SearchCall;
use crate::texts::TextCall;
use crate::{more_texts, numbers, pools, searches, texts};
use py_base::PyResult;
use std::alloc::Global;

/// A call on a text in a language, on integers, or on a pool.
#[derive(Clone, Copy, Debug, PartialEq, Eq)]
pub enum Call {
    Search(SearchCall, Language),
    OnText(TextCall, Language),
    More(MoreCall, Language),
    OnNumbers(NumberCall),
    OnPool(PoolCall),
}

impl Call {
    // The call of a name, as `find_ascii` or `modpow`.
    fn of_name(name: &str) -> Option<Call> {
        if let Some(call) = NumberCall::of_name(name) {
            return Some(Call::OnNumbers(call));
        }
        if let Some(call) = PoolCall::of_name(name) {
            return Some(Call::OnPool(call));
        }
        let (call, language) = name.split_once('_')?;
        Call::on_text(call, Language::of_name(language)?)
    }

    // The call of a name on a text.
    fn on_text(name: &str, language: Language) -> Option<Call> {
        if let Some(call) = SearchCall::of_name(name) {
            return Some(Call::Search(call, language));
        }
        match TextCall::of_name(name) {
            Some(call) => Some(Call::OnText(call, language)),
            None => Some(Call::More(MoreCall::of_name(name)?, language)),
        }
    }
}

/// A call, how many code points its text has or how many texts its pool (a call on integers has
/// neither), and how often it is made.
#[derive(Clone, Copy, Debug, PartialEq, Eq)]
pub struct Request {
    pub call: Call,
    pub size: u32,
    pub times: u32,
}

impl Request {
    /// The request of three words: the call's name, the size, and how often.
    pub fn of_words(name: &str, size: &str, times: &str) -> Option<Request> {
        Some(Request {
            call: Call::of_name(name)?,
            size: size.parse::<u32>().ok()?,
            times: times.parse::<u32>().ok()?,
        })
    }

    /// The sum of what the calls give.
    pub fn sum(&self, alloc: Global) -> PyResult<i128> {
        let Request { call, size, times } = *self;
        match call {
            Call::Search(call, language) => searches::sum(alloc, call, language, size, times),
            Call::OnText(call, language) => texts::sum(alloc, call, language, size, times),
            Call::More(call, language) => more_texts::sum(alloc, call, language, size, times),
            Call::OnNumbers(call) => numbers::sum(alloc, call, times),
            Call::OnPool(call) => pools::sum(alloc, call, size, times),
        }
    }
}

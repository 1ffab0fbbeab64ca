//! A request of substitution, and how it is read from bytes.

ghost use Rattle.std.specs.Prelude.{◌≡◌, ◌≢◌, IfOk};
ghost use Rattle.sre_commands.specs.Commands.Sub.Request.{Request, IsRequest, text_of, request_of};

use super::reader::read_request;
use super::template::Template;
use crate::error::ParseError;
use py_text::PyStr;
use std::alloc::Global;

/// A code, the subject that is searched for it, and the template that is filled for each span.
#[derive(Debug, Drop)]
pub struct Substitution {
    pub pattern: PyStr,
    pub words: Vec<u32>,
    pub groups: usize,
    pub limit: usize,
    pub template: Template,
    pub subject: PyStr,
}

/// The request whose text the bytes are, all of the bytes.
pub fn parse(alloc: Global, bytes: &[u8]) -> Result<Substitution, ParseError>
    ensures spelled { IfOk result (λ a. bytes.now ≡ text_of (request_of a)) }
    ensures request { IfOk result (λ a. IsRequest (request_of a)) }
    ensures no_request { result ≡ Err ParseError.NoRequest → (r : Request) → IsRequest r
        → bytes.now ≢ text_of r }
{
    read_request(alloc, bytes)
}

//! What the program does.

ghost use Rattle.std.specs.Prelude.{◌≡◌, ◌≢◌, ◌↔◌, ◌≤◌, ◌<◌, ◌⊎◌, ℕ, List, map, length, false, IsTrue, IfOk, IfErr, OnOk, string_bytes};
ghost use Rattle.sre_code.specs.PlainTree.{PlainTree};
ghost use Rattle.sre_code.specs.Spelling.{Spells, SpellsNothing};
ghost use Rattle.sre_commands.specs.Commands.Sub.Request.{Request, IsRequest, text_of, request_of};
ghost use Rattle.sre_commands.specs.Ending.{status_of, IsStatus, IsEither, writes};
ghost use Rattle.sre_commands.specs.Headline.{IsAnswered};
ghost use Rattle.sre_commands.specs.Program.{IsSub, RepliesTo, IsInvalidCode, IsNoRequest, IsCutShort, Ends, EndsReading, Asks};
ghost use Rattle.sre_commands.specs.Streams.{reading_of, writing_of, ReadFailed, WriteFailed, ReadWhole, TookAtMost, TookMoreThan, Wrote, WroteLess};

use crate::commands::sub::answer::answer;
use crate::commands::sub::request::{Substitution, parse};
use crate::ending::{Ending, status_of};
use crate::error::ParseError;
use crate::streams::{InputError, MOST_BYTES, read_all, write_all};
use py_base::{Sink, Source, Steps};
use sre_code::{CodeError, decode};
use std::alloc::Global;
use std::sync::ledger::Ledger;

/// What is written.
#[derive(Debug, Drop)]
enum Reply {
    /// The answer's line.
    Answer(Vec<u8>),
    /// The line that says that the code words spell no tree.
    InvalidCode,
}

// Whether the arguments are those of the one command.
fn is_sub(arguments: &[String]) -> bool
    ensures { IsTrue result ↔ IsSub (map string_bytes arguments.now) }
{
    let Some((word, rest)) = arguments.split_first() else {
        return false;
    };
    if !rest.is_empty() {
        return false;
    }
    word.as_str() == "sub"
}

// The request that the source holds.
fn read_request<S: Source>(alloc: Global, source: &mut S) -> Result<Substitution, Ending>
    ensures read { IfOk result (λ asked. ReadWhole
        (reading_of S.left S.faults source.old source.new) (text_of (request_of asked))) }
    ensures request { IfOk result (λ asked. IsRequest (request_of asked)) }
    ensures within { OnOk result (TookAtMost MOST_BYTES
        (reading_of S.left S.faults source.old source.new)) }
    ensures error { IfErr result (λ ending. EndsReading ending MOST_BYTES
        (reading_of S.left S.faults source.old source.new)) }
{
    let bytes = match read_all(alloc, source) {
        Ok(bytes) => bytes,
        Err(InputError::NoMemory) => return Err(Ending::NoMemory),
        Err(InputError::Failed) => return Err(Ending::SourceFailed),
        Err(InputError::TooLong) => return Err(Ending::TooLong),
    };
    match parse(alloc, &bytes) {
        Ok(asked) => Ok(asked),
        Err(ParseError::NoMemory) => Err(Ending::NoMemory),
        Err(ParseError::NoRequest) => Err(Ending::NoRequest),
    }
}

// The reply to a request.
fn reply_to<L: Ledger>(
    alloc: Global,
    asked: &Substitution,
    steps: &mut Steps<L>,
) -> Result<Reply, Ending>
    requires { IsRequest (request_of asked.now) }
    ensures replies { IfOk result (RepliesTo (request_of asked.now)) }
    ensures error { IfErr result (λ ending. ending ≡ Ending.NoMemory) }
{
    match decode(alloc, &asked.words, asked.groups) {
        Ok(code) => match answer(alloc, asked, &code, steps) {
            Ok(line) => Ok(Reply::Answer(line)),
            Err(_) => Err(Ending::NoMemory),
        },
        Err(CodeError::NoMemory) => Err(Ending::NoMemory),
        Err(CodeError::InvalidCode) => Ok(Reply::InvalidCode),
    }
}

// Writes the line, and answers the ending, or that the sink failed.
fn written<K: Sink>(sink: &mut K, line: &[u8], ending: Ending) -> Ending
    ensures ends { (result ≡ ending) ⊎ (result ≡ Ending.SinkFailed) }
    ensures all { result ≢ Ending.SinkFailed → Wrote
        (writing_of K.contents K.faults sink.old sink.new) line.now }
    ensures less { result ≢ ending → WroteLess
        (writing_of K.contents K.faults sink.old sink.new) line.now }
    ensures failed { result ≢ ending
        → WriteFailed (writing_of K.contents K.faults sink.old sink.new) }
{
    match write_all(sink, line) {
        Ok(()) => ending,
        Err(_) => Ending::SinkFailed,
    }
}

// Does what the arguments say, and answers how that ends.
fn act<S: Source, K: Sink, L: Ledger>(
    alloc: Global,
    arguments: &[String],
    source: &mut S,
    sink: &mut K,
    steps: &mut Steps<L>,
) -> Ending
    ensures ends { Ends result (map string_bytes arguments.now) MOST_BYTES
        (reading_of S.left S.faults source.old source.new)
        (writing_of K.contents K.faults sink.old sink.new) }
    ensures unread { result ≡ Ending.NoCommand → source.new ≡ source.old }
    ensures unwritten { writes result ≡ false → sink.new ≡ sink.old }
{
    if !is_sub(arguments) {
        return Ending::NoCommand;
    }
    let asked = match read_request(alloc, source) {
        Ok(asked) => asked,
        Err(ending) => return ending,
    };
    match reply_to(alloc, &asked, steps) {
        Ok(Reply::Answer(line)) => written(sink, &line, Ending::Answered),
        Ok(Reply::InvalidCode) => written(sink, b"error invalid_code\n", Ending::InvalidCode),
        Err(ending) => ending,
    }
}

/// Does what the arguments of the command line say, without the program's name, from the source to
/// the sink, and answers the status. No memory is taken after the first write.
pub fn run<S: Source, K: Sink, L: Ledger>(
    alloc: Global,
    arguments: &[String],
    source: &mut S,
    sink: &mut K,
    steps: &mut Steps<L>,
) -> u8
    // The source was read to its end as one request, and its answer was written.
    ensures answered { result ≡ status_of Ending.Answered → IsAnswered
        (reading_of S.left S.faults source.old source.new)
        (writing_of K.contents K.faults sink.old sink.new) }

    // Every other status, and its cause.
    ensures known { IsStatus result }
    ensures invalid_code { result ≡ status_of Ending.InvalidCode → IsInvalidCode
        (reading_of S.left S.faults source.old source.new)
        (writing_of K.contents K.faults sink.old sink.new) }
    ensures no_command { (result ≡ status_of Ending.NoCommand)
        ↔ (IsSub (map string_bytes arguments.now) → ⊥) }
    ensures no_request { result ≡ status_of Ending.NoRequest → IsNoRequest
        (reading_of S.left S.faults source.old source.new) }
    ensures source_failed { result ≡ status_of Ending.SourceFailed → ReadFailed
        (reading_of S.left S.faults source.old source.new) }
    ensures cut_short { result ≡ status_of Ending.SinkFailed → IsCutShort
        (reading_of S.left S.faults source.old source.new)
        (writing_of K.contents K.faults sink.old sink.new) }
    ensures too_long { result ≡ status_of Ending.TooLong → TookMoreThan MOST_BYTES
        (reading_of S.left S.faults source.old source.new) }
    ensures within { result ≢ status_of Ending.TooLong → TookAtMost MOST_BYTES
        (reading_of S.left S.faults source.old source.new) }

    // What is left as it was.
    ensures unread { result ≡ status_of Ending.NoCommand → source.new ≡ source.old }
    ensures unwritten { result ≢ status_of Ending.Answered → result ≢ status_of Ending.InvalidCode
        → result ≢ status_of Ending.SinkFailed → sink.new ≡ sink.old }

    // What a source that tells its bytes brings about, where no stream fails: its answer, the line
    // that says that its code words spell no tree, or the status of bytes that are no request or
    // too many. Only memory may run out first.
    ensures good_request { (r : Request) (t : PlainTree) → IsRequest r → Spells r.words r.groups t
        → Asks (map string_bytes arguments.now) (S.left source.old) (text_of r)
        → length (text_of r) ≤ MOST_BYTES
        → ¬ ReadFailed (reading_of S.left S.faults source.old source.new)
        → ¬ WriteFailed (writing_of K.contents K.faults sink.old sink.new)
        → IsEither result Ending.Answered Ending.NoMemory }
    ensures spells_none { (r : Request) → IsRequest r → SpellsNothing r.words r.groups
        → Asks (map string_bytes arguments.now) (S.left source.old) (text_of r)
        → length (text_of r) ≤ MOST_BYTES
        → ¬ ReadFailed (reading_of S.left S.faults source.old source.new)
        → ¬ WriteFailed (writing_of K.contents K.faults sink.old sink.new)
        → IsEither result Ending.InvalidCode Ending.NoMemory }
    ensures text_of_none { (bytes : List ℕ)
        → ((r : Request) → IsRequest r → bytes ≢ text_of r)
        → Asks (map string_bytes arguments.now) (S.left source.old) bytes
        → length bytes ≤ MOST_BYTES
        → ¬ ReadFailed (reading_of S.left S.faults source.old source.new)
        → IsEither result Ending.NoRequest Ending.NoMemory }
    ensures too_many { (bytes : List ℕ)
        → Asks (map string_bytes arguments.now) (S.left source.old) bytes
        → MOST_BYTES < length bytes
        → ¬ ReadFailed (reading_of S.left S.faults source.old source.new)
        → IsEither result Ending.TooLong Ending.NoMemory }
{
    status_of(act(alloc, arguments, source, sink, steps))
}

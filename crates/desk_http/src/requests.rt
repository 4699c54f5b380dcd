// What a request asks the desk for, or why it is answered before its command.
ghost use Rattle.std.specs.Prelude.{◌≡◌, ◌≤◌, IfOk, MatchResult, Result, Ok, Err, map, length};
ghost use Rattle.desk_csv.specs.declared.reading.TheConstants.{TEXT_LIMIT};
ghost use Rattle.httparse.specs.Borrowed.{header_parts};
ghost use Rattle.desk_core.specs.Machine.{IsCommand};
ghost use Rattle.httparse.specs.Grammar.{RequestHead};
ghost use Rattle.desk_core.specs.declared.commands.Command.{Command as Asked};
ghost use Rattle.desk_http.specs.declared.early.Early.{Early as Answered};
ghost use Rattle.desk_http.specs.Heads.{IsPartsOf};
ghost use Rattle.desk_http.specs.Requests.{Says, body_length, opening_of, command_of, body_of, asked_in, asked_of, asked_by, Asks};

use crate::bodies::{length_in, publication_in};
use crate::early::{Early, Halt, Verb};
use crate::heads::{HEADER_ROOM, Head, read_head};
use crate::routes::{Target, target_of};
use desk_core::Command;
use desk_words::USUAL_LIMITS;
use httparse::{EMPTY_HEADER, Header};
use minute_line::Bytes;
use std::alloc::Global;

/// What the head of a request names, and how long its body is.
#[derive(Clone, Copy, Debug)]
pub(crate) struct Opening {
    pub(crate) target: Target,
    /// 0 where the route reads no body.
    pub(crate) length: usize,
}

/// The length of a request's body. No body is read of a request to get something.
fn body_length(verb: Verb, headers: &[Header<'_>]) -> Result<usize, Early>
    ensures length { result ≡ body_length verb (map header_parts headers.now) }
    ensures limit { IfOk result (λ length. length ≤ TEXT_LIMIT) }
{
    match verb {
        Verb::Get => Ok(0),
        Verb::Post => length_in(headers),
    }
}

/// What a head opens.
pub(crate) fn opening_of(alloc: Global, head: &Head<'_, '_>) -> Result<Opening, Halt>
    ensures opening { Says (λ opening. opening) result
        (opening_of head.now.method.now head.now.target.now (map header_parts head.now.headers.now)) }
    ensures limit { IfOk result (λ opening. opening.length ≤ TEXT_LIMIT) }
{
    let Some(target) = target_of(alloc, head.target)? else {
        return Err(Halt::Early(Early::Lost));
    };
    let verb = target.verb();
    if verb.method().as_str() != head.method {
        return Err(Halt::Early(Early::Method(verb)));
    }
    let length = body_length(verb, head.headers)?;
    Ok(Opening { target, length })
}

/// The body, where all of it came.
fn body_of(rest: &[u8], n: usize) -> Result<&[u8], Early>
    ensures body { MatchResult result (λ body. body_of n rest.now ≡ Ok body.now) (λ early. body_of n rest.now ≡ Err early) }
    ensures length { IfOk result (λ body. length body.now ≡ n) }
{
    if rest.len() < n {
        return Err(Early::Bad);
    }
    Ok(&rest[..n])
}

/// The command of a target, with its body.
fn command_of(alloc: Global, target: Target, body: &[u8]) -> Result<Command, Halt>
    requires { length body.now ≤ TEXT_LIMIT }
    ensures command { Says (λ command. command) result (command_of target body.now) }
    ensures may { IfOk result IsCommand }
{
    match target {
        Target::Plan => Ok(Command::Plan(Bytes::from_slice(alloc, body)?, USUAL_LIMITS)),
        Target::Check => Ok(Command::Check(Bytes::from_slice(alloc, body)?)),
        Target::Publish => match publication_in(alloc, body)? {
            Some((monday, revision)) => Ok(Command::Publish(monday, revision)),
            None => Err(Halt::Early(Early::Bad)),
        },
        Target::Show(monday) => Ok(Command::Show(monday)),
        Target::Export(monday) => Ok(Command::Export(monday)),
    }
}

/// What a request with that head asks for.
fn asked_by(alloc: Global, head: &Head<'_, '_>) -> Result<Command, Halt>
    ensures asked { Says (λ command. command) result
        (asked_of head.now.method.now head.now.target.now (map header_parts head.now.headers.now) head.now.rest.now) }
    ensures may { IfOk result IsCommand }
{
    let opening = opening_of(alloc, head)?;
    let body = body_of(head.rest, opening.length)?;
    command_of(alloc, opening.target, body)
}

/// What a request asks for, or why it is answered before its command.
pub(crate) fn asked(alloc: Global, request: &[u8]) -> Result<Command, Halt>
    ensures asked { (said : Result Asked Answered) × Asks request.now said × Says (λ command. command) result said }
    ensures may { IfOk result IsCommand }
{
    let mut room = [EMPTY_HEADER; HEADER_ROOM];
    match read_head(request, &mut room) {
        Some(head) => asked_by(alloc, &head),
        None => Err(Halt::Early(Early::Bad)),
    }
}

// What is answered, and its bytes.
ghost use Rattle.std.specs.Prelude.{◌≡◌, ◌+◌, ◌≤◌, ◌++◌, [], vec_len, vec_capacity, IfOk, length, codes};
ghost use Rattle.std.specs.Fmt.{decimal};
ghost use Rattle.desk_http.specs.Answers.{code_of, phrase_of, status_line, length_line, allowed_line, head_text, kind_of, HasBody};

use crate::early::{Early, Verb};
use http::StatusCode;
use itoa::Buffer;
use minute_line::{Bytes, Many, Memory};
use std::alloc::Global;

/// What a request is answered.
#[derive(Debug, Drop)]
pub struct Answer {
    pub status: u16,
    /// The lines up to and with the empty one.
    pub head: Bytes,
    /// What comes after it.
    pub body: Bytes,
}

/// What kind of answer it is.
#[derive(Clone, Copy, PartialEq, Eq, Debug)]
pub(crate) enum Kind {
    Done,
    Bad,
    Lost,
    Method(Verb),
    Conflict,
    Long,
    Fault,
    NoMemory,
}

impl Kind {
    /// The kind of an early answer.
    pub(crate) fn of(early: Early) -> Kind
        ensures { result ≡ kind_of early }
    {
        match early {
            Early::Bad => Kind::Bad,
            Early::Lost => Kind::Lost,
            Early::Method(verb) => Kind::Method(verb),
            Early::Long => Kind::Long,
        }
    }

    /// The number of its status.
    pub(crate) fn status(self) -> u16
        ensures { result ≡ code_of self }
    {
        let status = match self {
            Kind::Done => StatusCode::OK,
            Kind::Bad => StatusCode::BAD_REQUEST,
            Kind::Lost => StatusCode::NOT_FOUND,
            Kind::Method(_) => StatusCode::METHOD_NOT_ALLOWED,
            Kind::Conflict => StatusCode::CONFLICT,
            Kind::Long => StatusCode::PAYLOAD_TOO_LARGE,
            Kind::Fault => StatusCode::SERVICE_UNAVAILABLE,
            Kind::NoMemory => StatusCode::INSUFFICIENT_STORAGE,
        };
        status.as_u16()
    }

    /// The phrase of its status.
    fn phrase(self) -> &'static [u8]
        ensures phrase { result.now ≡ phrase_of self }
        ensures short { length result.now ≤ 18 }
    {
        match self {
            Kind::Done => b"OK",
            Kind::Bad => b"Bad Request",
            Kind::Lost => b"Not Found",
            Kind::Method(_) => b"Method Not Allowed",
            Kind::Conflict => b"Conflict",
            Kind::Long => b"Too Large",
            Kind::Fault => b"Unavailable",
            Kind::NoMemory => b"No Memory",
        }
    }
}

/// The room for a head.
pub(crate) fn head_room(alloc: Global) -> Result<Vec<u8>, Memory>
    ensures empty { IfOk result (λ room. room.items ≡ []) }
    ensures room { IfOk result (λ room. 256 ≤ vec_capacity room) }
{
    Ok(Vec::with_capacity(alloc, 256)?)
}

/// Adds bytes for which there is room. It takes no memory.
fn put(text: &mut Vec<u8>, bytes: &[u8])
    requires { vec_len text.old + length bytes.now ≤ vec_capacity text.old }
    ensures text { text.new.items ≡ text.old.items ++ bytes.now }
    ensures length { vec_len text.new ≡ vec_len text.old + length bytes.now }
    ensures room { vec_capacity text.old ≤ vec_capacity text.new }
{
    let Ok(()) = text.extend_from_slice(bytes) else {
        unreachable!()
    };
}

/// Adds a number for which there is room. It takes no memory.
fn put_number(text: &mut Vec<u8>, number: u64)
    requires { vec_len text.old + 40 ≤ vec_capacity text.old }
    ensures text { text.new.items ≡ text.old.items ++ decimal number }
    ensures length { vec_len text.new ≤ vec_len text.old + 40 }
    ensures room { vec_capacity text.old ≤ vec_capacity text.new }
{
    let mut digits = Buffer::new();
    put(text, digits.format(number).as_bytes());
}

/// Adds the line of the status.
fn put_status(text: &mut Vec<u8>, kind: Kind)
    requires { vec_len text.old + 80 ≤ vec_capacity text.old }
    ensures text { text.new.items ≡ text.old.items ++ status_line kind }
    ensures length { vec_len text.new ≤ vec_len text.old + 80 }
    ensures room { vec_capacity text.old ≤ vec_capacity text.new }
{
    put(text, b"HTTP/1.1 ");
    put_number(text, kind.status() as u64);
    put(text, b" ");
    put(text, kind.phrase());
    put(text, b"\r\n");
}

/// Adds the line of the body's length.
fn put_length(text: &mut Vec<u8>, n: usize)
    requires { vec_len text.old + 60 ≤ vec_capacity text.old }
    ensures text { text.new.items ≡ text.old.items ++ length_line n }
    ensures length { vec_len text.new ≤ vec_len text.old + 60 }
    ensures room { vec_capacity text.old ≤ vec_capacity text.new }
{
    put(text, b"content-length: ");
    put_number(text, n as u64);
    put(text, b"\r\n");
}

/// Adds the line of the method that the route has, where another was asked for.
fn put_allowed(text: &mut Vec<u8>, kind: Kind)
    requires { vec_len text.old + 20 ≤ vec_capacity text.old }
    ensures text { text.new.items ≡ text.old.items ++ allowed_line kind }
    ensures length { vec_len text.new ≤ vec_len text.old + 20 }
    ensures room { vec_capacity text.old ≤ vec_capacity text.new }
{
    match kind {
        Kind::Method(Verb::Get) => put(text, b"allow: GET\r\n"),
        Kind::Method(Verb::Post) => put(text, b"allow: POST\r\n"),
        _ => {}
    }
}

/// The head of an answer with a body of that length. It takes no memory.
fn head_in(room: Vec<u8>, kind: Kind, n: usize) -> Bytes
    requires empty { room.items ≡ [] }
    requires room { 256 ≤ vec_capacity room }
    ensures { result ≡ head_text kind n }
{
    let mut text = room;
    put_status(&mut text, kind);
    put(&mut text, b"content-type: text/plain\r\n");
    put_length(&mut text, n);
    put_allowed(&mut text, kind);
    put(&mut text, b"connection: close\r\n\r\n");
    Many::from_vec(text)
}

/// The answer of that kind with that body. It takes no memory.
pub(crate) fn answer_with(room: Vec<u8>, kind: Kind, body: Bytes) -> Answer
    requires empty { room.items ≡ [] }
    requires room { 256 ≤ vec_capacity room }
    ensures { HasBody kind body result }
{
    let head = head_in(room, kind, body.len());
    Answer {
        status: kind.status(),
        head,
        body,
    }
}

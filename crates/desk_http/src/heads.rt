// The head of a request.
ghost use Rattle.std.specs.Prelude.{◌≡◌, ◌≤◌, ◌<◌, ℕ, List, length, take, drop, map, IfSome, IfNone, IsTrue, IsFalse};
ghost use Rattle.httparse.specs.Grammar.{RequestHead};
ghost use Rattle.httparse.specs.Spans.{name_and_value};
ghost use Rattle.desk_http.specs.Heads.{HasHead, HasNoHead, IsPartsOf, IsHeadSettled};

use httparse::spans::{HeaderSpan, parse_request};
use httparse::{Header, Request, Status};

/// The most bytes of a head.
pub(crate) const HEAD_LIMIT: usize = 8192;

/// The most headers of a head.
pub(crate) const HEADER_LIMIT: usize = 32;

/// The room for headers: one more than a head may have, so that one too many is seen.
pub(crate) const HEADER_ROOM: usize = 33;

/// The parts of a head, and the bytes after it.
#[derive(Clone, Copy, Debug)]
pub(crate) struct Head<'h, 'b> {
    pub(crate) method: &'b str,
    pub(crate) target: &'b str,
    pub(crate) headers: &'h [Header<'b>],
    pub(crate) rest: &'b [u8],
}

/// The bytes in which a head has to end.
fn first_bytes(request: &[u8]) -> &[u8]
    ensures { result.now ≡ take 8192 request.now }
{
    if request.len() > HEAD_LIMIT {
        return request.split_at(HEAD_LIMIT).0;
    }
    request
}

/// The bytes after the first n.
pub(crate) fn after(bytes: &[u8], n: usize) -> &[u8]
    ensures { result.now ≡ drop n bytes.now }
{
    if bytes.len() < n {
        return &[];
    }
    &bytes[n..]
}

/// The head that a request begins with, where it ends within 8,192 bytes and has at most 32 headers.
pub(crate) fn read_head<'h, 'b>(
    request: &'b [u8],
    room: &'h mut [Header<'b>],
) -> Option<Head<'h, 'b>>
    requires { length room.old ≡ 33 }
    ensures some { IfSome result (λ parts. (head : RequestHead) × HasHead request.now head parts.rest.now × IsPartsOf head parts) }
    ensures none { IfNone result (HasNoHead request.now) }
{
    let mut parsed = Request::new(room);
    let len = match parsed.parse(first_bytes(request)) {
        Ok(Status::Complete(len)) => len,
        Ok(Status::Partial) => return None,
        Err(_) => return None,
    };
    let (Some(method), Some(target)) = (parsed.method, parsed.path) else {
        return None;
    };
    let headers = parsed.headers;
    if headers.len() > HEADER_LIMIT {
        return None;
    }
    Some(Head {
        method,
        target,
        headers,
        rest: after(request, len),
    })
}

/// Whether bytes that come may still bring a head: those that are there may become one, and are fewer than 8,192.
pub(crate) fn may_become_head(request: &[u8], spans: &mut [HeaderSpan]) -> bool
    requires { length spans.old ≡ 32 }
    ensures room { IsTrue result → length request.now < 8192 }
    ensures settled { IsFalse result → IsHeadSettled request.now }
{
    if request.len() >= HEAD_LIMIT {
        return false;
    }
    match parse_request(request, spans) {
        Ok(Status::Partial) => true,
        Ok(Status::Complete(_)) => false,
        Err(_) => false,
    }
}

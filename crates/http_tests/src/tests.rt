// Requests and their answers. Statuses and bytes stand in the desk's formats; lengths were counted by hand.
ghost use Rattle.std.specs.Prelude.{◌<◌};

use crate::desks::{Ways, serve};
use crate::sockets::serve_over_socket;
use desk_http::Served;
use desk_keeper::MemoryKeeper;
use minute_line::{Bytes, Many, Memory};
use std::alloc::Global;
use std::test::Fail;
use std::thread::Threads;

/// The request that plans a week of two orders and no driver.
const PLAN: &[u8] =
    b"POST /plan HTTP/1.1\r\nhost: localhost\r\ncontent-length: 170\r\n\r\nweek,2026-03-02,15,3000,15\nplace,HUB\nplace,LYON\norder,A,LYON,2026-03-02T08:00,2026-03-02T12:00,30,12000,9000\norder,B,LYON,2026-03-03T08:00,2026-03-03T12:00,30,12000,4500\n";

/// Its first answer.
const PLANNED: &[u8] =
    b"HTTP/1.1 200 OK\r\ncontent-type: text/plain\r\ncontent-length: 102\r\nconnection: close\r\n\r\nweek 2026-03-02\ncost 13500\nbound 13500\nstate proved\nnodes 1\norder A out 9000\norder B out 4500\ndraft 1\n";

/// The request that publishes it.
const PUBLISH: &[u8] =
    b"POST /publish HTTP/1.1\r\ncontent-length: 36\r\n\r\n{\"monday\":\"2026-03-02\",\"revision\":1}";

/// Its first answer.
const PUBLISHED: &[u8] =
    b"HTTP/1.1 200 OK\r\ncontent-type: text/plain\r\ncontent-length: 31\r\nconnection: close\r\n\r\npublished 2026-03-02 receipt 1\n";

/// The answer to a request that has no reading.
const BAD: &[u8] =
    b"HTTP/1.1 400 Bad Request\r\ncontent-type: text/plain\r\ncontent-length: 12\r\nconnection: close\r\n\r\nbad request\n";

/// The answer to a target that has no route.
const LOST: &[u8] =
    b"HTTP/1.1 404 Not Found\r\ncontent-type: text/plain\r\ncontent-length: 10\r\nconnection: close\r\n\r\nnot found\n";

/// The answer to another method, where the route has GET.
const NOT_GET: &[u8] =
    b"HTTP/1.1 405 Method Not Allowed\r\ncontent-type: text/plain\r\ncontent-length: 7\r\nallow: GET\r\nconnection: close\r\n\r\nmethod\n";

/// The answer to another method, where the route has POST.
const NOT_POST: &[u8] =
    b"HTTP/1.1 405 Method Not Allowed\r\ncontent-type: text/plain\r\ncontent-length: 7\r\nallow: POST\r\nconnection: close\r\n\r\nmethod\n";

/// The answer to a request to show a week that has nothing.
const NOT_KEPT: &[u8] =
    b"HTTP/1.1 404 Not Found\r\ncontent-type: text/plain\r\ncontent-length: 25\r\nconnection: close\r\n\r\nrefused draft 2026-03-09\n";

/// The answer to the check of a text without drivers.
const CHECKED: &[u8] =
    b"HTTP/1.1 200 OK\r\ncontent-type: text/plain\r\ncontent-length: 0\r\nconnection: close\r\n\r\n";

/// The answer to the publication of a week that has no draft.
const NO_DRAFT: &[u8] =
    b"HTTP/1.1 409 Conflict\r\ncontent-type: text/plain\r\ncontent-length: 25\r\nconnection: close\r\n\r\nrefused draft 2026-03-02\n";

/// Whether a request over a link of such pieces has these bytes as its answer.
fn answers<R: Threads + Sync>(
    rt: &R,
    alloc: Global,
    keeper: &mut MemoryKeeper,
    piece: usize,
    request: &[u8],
    answer: &[u8],
) -> bool
    requires { 0 < piece }
{
    let ways = Ways {
        piece,
        failing_read: 0,
        failing_write: 0,
    };
    match serve(rt, alloc, keeper, request, ways) {
        Ok(told) => told.written.as_slice() == answer,
        Err(Memory) => false,
    }
}

/// Whether a week is planned and published over links of such pieces.
fn plans_and_publishes<R: Threads + Sync>(rt: &R, alloc: Global, piece: usize) -> bool
    requires { 0 < piece }
{
    let mut keeper = MemoryKeeper::new(alloc, Many::new(alloc));
    let planned = answers(rt, alloc, &mut keeper, piece, PLAN, PLANNED);
    planned && answers(rt, alloc, &mut keeper, piece, PUBLISH, PUBLISHED)
}

#[test]
fn a_week_is_planned_and_published(rt: HostRuntime) -> Result<(), Fail> {
    assert!(rt; plans_and_publishes(&rt, rt.alloc(), 1));
    assert!(rt; plans_and_publishes(&rt, rt.alloc(), 20));
    assert!(rt; plans_and_publishes(&rt, rt.alloc(), 50));
    Ok(())
}

/// Whether a desk that keeps nothing has these bytes as its answer.
fn tells<R: Threads + Sync>(rt: &R, alloc: Global, request: &[u8], answer: &[u8]) -> bool {
    let mut keeper = MemoryKeeper::new(alloc, Many::new(alloc));
    answers(rt, alloc, &mut keeper, 50, request, answer)
}

#[test]
fn a_week_that_is_not_kept_is_not_found(rt: HostRuntime) -> Result<(), Fail> {
    let request = b"GET /weeks/2026-03-09 HTTP/1.1\r\n\r\n";
    assert!(rt; tells(&rt, rt.alloc(), request, NOT_KEPT));
    Ok(())
}

#[test]
fn a_method_that_is_not_the_routes_is_told_which_is(rt: HostRuntime) -> Result<(), Fail> {
    assert!(rt; tells(&rt, rt.alloc(), b"GET /plan HTTP/1.1\r\n\r\n", NOT_POST));
    Ok(())
}

#[test]
fn a_body_that_is_too_long_is_not_read(rt: HostRuntime) -> Result<(), Fail> {
    let answer =
        b"HTTP/1.1 413 Too Large\r\ncontent-type: text/plain\r\ncontent-length: 9\r\nconnection: close\r\n\r\ntoo long\n";
    let request = b"POST /plan HTTP/1.1\r\ncontent-length: 1048577\r\n\r\n";
    assert!(rt; tells(&rt, rt.alloc(), request, answer));
    Ok(())
}

// Where several things are wrong, the first in the order of the formats is told. A head has the version 1.0 or 1.1. 2026-03-10 is
// a Tuesday.
#[test]
fn a_head_is_told_what_is_wrong_first(rt: HostRuntime) -> Result<(), Fail> {
    for (line, answer) in [
        ("GET /weeks/2026-03-09 HTTP/1.0\r\n", NOT_KEPT),
        ("GET /weeks/2026-03-09 HTTP/2.0\r\n", BAD),
        ("GET /weeks/2026-03-09\r\n", BAD),
        ("GET /week/2026-03-09 HTTP/1.1\r\n", LOST),
        ("POST /weeks/2026-03-10 HTTP/1.1\r\n", LOST),
        ("BREW /nothing HTTP/1.1\r\n", LOST),
        ("BREW /plan HTTP/1.1\r\n", NOT_POST),
        ("BREW /weeks/2026-03-09/export HTTP/1.1\r\n", NOT_GET),
        ("HEAD /weeks/2026-03-09 HTTP/1.1\r\n", NOT_GET),
        ("POST /plan HTTP/1.1\r\n", BAD),
    ] {
        let request = format!(in rt.alloc(); "{line}transfer-encoding: chunked\r\n\r\n")?;
        assert!(rt;
            tells(&rt, rt.alloc(), request.as_bytes(), answer),
            "{line}"
        );
    }
    Ok(())
}

// The body has 27 bytes.
#[test]
fn a_body_has_the_length_that_its_head_says(rt: HostRuntime) -> Result<(), Fail> {
    for (lines, answer) in [
        ("content-length: 27\r\n", CHECKED),
        ("content-length: 28\r\n", BAD),
        ("content-length: 0000000027\r\n", CHECKED),
        ("content-length: 00000000027\r\n", BAD),
        ("content-length: 2a\r\n", BAD),
        ("", BAD),
        ("content-length: 27\r\ntransfer-encoding: chunked\r\n", BAD),
        (
            "transfer-encoding: chunked\r\ncontent-length: 1048577\r\n",
            BAD,
        ),
    ] {
        let request = format!(in rt.alloc();
            "POST /check HTTP/1.1\r\n{lines}\r\nweek,2026-03-02,15,3000,15\n"
        )?;
        assert!(rt;
            tells(&rt, rt.alloc(), request.as_bytes(), answer),
            "{lines}"
        );
    }
    Ok(())
}

#[test]
fn a_publication_names_a_monday_and_a_revision(rt: HostRuntime) -> Result<(), Fail> {
    for (body, answer) in [
        (r#"{"monday":"2026-03-02","revision":1}"#, NO_DRAFT),
        (r#"{"monday":"2026-03-02","revision":1000000}"#, NO_DRAFT),
        (r#"{"monday":"2026-03-02","revision":1000001}"#, BAD),
        (r#"{"monday":"2026-03-02","revision":0}"#, BAD),
        (r#"{"monday":"2026-03-02","revision":1.0}"#, BAD),
        (r#"{"monday":"2026-03-02","revision":"1"}"#, BAD),
        (r#"{"monday":"2026-03-02"}"#, BAD),
        (r#"{"monday":20260302,"revision":1}"#, BAD),
        (r#"{"monday":"2026-03-03","revision":1}"#, BAD),
        (r#"{"revision":1}"#, BAD),
        (r#"["2026-03-02",1]"#, BAD),
        ("", BAD),
    ] {
        let length = body.len();
        let request = format!(in rt.alloc();
            "POST /publish HTTP/1.1\r\ncontent-length: {length}\r\n\r\n{body}"
        )?;
        assert!(rt;
            tells(&rt, rt.alloc(), request.as_bytes(), answer),
            "{body}"
        );
    }
    Ok(())
}

#[test]
fn a_head_that_is_cut_has_no_reading(rt: HostRuntime) -> Result<(), Fail> {
    assert!(rt; tells(&rt, rt.alloc(), b"GET /pl", BAD));
    Ok(())
}

#[test]
fn a_length_is_given_once(rt: HostRuntime) -> Result<(), Fail> {
    let request = b"POST /plan HTTP/1.1\r\ncontent-length: 0\r\ncontent-length: 0\r\n\r\n";
    assert!(rt; tells(&rt, rt.alloc(), request, BAD));
    Ok(())
}

#[test]
fn a_revision_is_given_once(rt: HostRuntime) -> Result<(), Fail> {
    let request =
        b"POST /publish HTTP/1.1\r\ncontent-length: 51\r\n\r\n{\"revision\":7,\"monday\":\"2026-03-02\",\"revision\":1000}";
    assert!(rt; tells(&rt, rt.alloc(), request, BAD));
    Ok(())
}

/// A text, then so many times another, then the end.
fn repeated(
    alloc: Global,
    head: &[u8],
    more: &[u8],
    times: usize,
    end: &[u8],
) -> Result<Bytes, Memory> {
    let mut bytes = Bytes::from_slice(alloc, head)?;
    for _ in 0..times {
        bytes.extend_from_slice(more)?;
    }
    bytes.extend_from_slice(end)?;
    Ok(bytes)
}

/// Whether a head of one header of so many bytes `a` has no reading. Its first line has 32 bytes, the header's name and its
/// colon 2, and the two ends of lines 4.
fn is_bad_at<R: Threads + Sync>(rt: &R, alloc: Global, bytes: usize) -> bool {
    let line = b"GET /weeks/2026-03-02 HTTP/1.1\r\nx:";
    match repeated(alloc, line, b"a", bytes, b"\r\n\r\n") {
        Ok(request) => tells(rt, alloc, request.as_slice(), BAD),
        Err(Memory) => false,
    }
}

#[test]
fn a_head_has_at_most_8192_bytes(rt: HostRuntime) -> Result<(), Fail> {
    assert!(rt; !is_bad_at(&rt, rt.alloc(), 8154));
    assert!(rt; is_bad_at(&rt, rt.alloc(), 8155));
    Ok(())
}

/// Whether a head of so many headers has no reading.
fn is_bad_of<R: Threads + Sync>(rt: &R, alloc: Global, headers: usize) -> bool {
    let line = b"GET /weeks/2026-03-02 HTTP/1.1\r\n";
    match repeated(alloc, line, b"x:y\r\n", headers, b"\r\n") {
        Ok(request) => tells(rt, alloc, request.as_slice(), BAD),
        Err(Memory) => false,
    }
}

#[test]
fn a_head_has_at_most_32_headers(rt: HostRuntime) -> Result<(), Fail> {
    assert!(rt; !is_bad_of(&rt, rt.alloc(), 32));
    assert!(rt; is_bad_of(&rt, rt.alloc(), 33));
    Ok(())
}

/// What a link of 20 bytes a call, whose read and write of these numbers fail, comes to: what was served, how much of the
/// answer was written, and how many drafts are kept then. None where other bytes were written, or memory was wanted.
fn failing<R: Threads + Sync>(
    rt: &R,
    alloc: Global,
    failing_read: u64,
    failing_write: u64,
) -> Option<(Served, usize, usize)> {
    let mut keeper = MemoryKeeper::new(alloc, Many::new(alloc));
    let ways = Ways {
        piece: 20,
        failing_read,
        failing_write,
    };
    let told = serve(rt, alloc, &mut keeper, PLAN, ways).ok()?;
    if PLANNED.starts_with(told.written.as_slice()) {
        Some((told.served, told.written.len(), keeper.drafts.len()))
    } else {
        None
    }
}

#[test]
fn nothing_is_written_after_a_read_that_failed(rt: HostRuntime) -> Result<(), Fail> {
    assert!(rt; failing(&rt, rt.alloc(), 1, 0) == Some((Served::ReadFault, 0, 0)));
    assert!(rt; failing(&rt, rt.alloc(), 4, 0) == Some((Served::ReadFault, 0, 0)));
    Ok(())
}

#[test]
fn a_beginning_is_written_before_a_write_that_failed(rt: HostRuntime) -> Result<(), Fail> {
    assert!(rt; failing(&rt, rt.alloc(), 0, 1) == Some((Served::WriteFault, 0, 1)));
    assert!(rt; failing(&rt, rt.alloc(), 0, 3) == Some((Served::WriteFault, 40, 1)));
    Ok(())
}

// The third call of a plan without drivers puts the draft.
#[test]
fn a_failing_keeper_is_told(rt: HostRuntime) -> Result<(), Fail> {
    let answer =
        b"HTTP/1.1 503 Unavailable\r\ncontent-type: text/plain\r\ncontent-length: 15\r\nconnection: close\r\n\r\nrefused keeper\n";
    let mut keeper = MemoryKeeper::new(rt.alloc(), Many::new(rt.alloc()));
    keeper.fails.push(3).ok().ok_or("memory")?;
    assert!(rt; answers(&rt, rt.alloc(), &mut keeper, 50, PLAN, answer));
    assert_eq!(rt; (keeper.drafts.len(), keeper.faults), (0, 1));
    Ok(())
}

#[test]
fn a_stream_is_answered_and_closed(rt: HostRuntime) -> Result<(), Fail> {
    let mut keeper = MemoryKeeper::new(rt.alloc(), Many::new(rt.alloc()));
    let told = serve_over_socket(&rt, rt.alloc(), &mut keeper, PLAN)?;
    assert_eq!(rt; told.served, Served::Status(200));
    assert!(rt; told.written.as_slice() == PLANNED);
    assert_eq!(rt; keeper.drafts.len(), 1);
    Ok(())
}

//! The dispatch desk on the command line: does what its words ask for, with the text on standard input and the store in the current
//! folder, writes its answer on standard output, and ends with a status. 0: done. 2: the words are no command. 3: the text is refused.
//! 4: it is refused for what is kept. 5: the input failed. 6: the output failed. 7: the store failed. 8: want of memory. 9: a server
//! can't listen.
#![tactic(auto)]

mod progress;
mod serving;
mod stores;

use desk::{WANT_OF_MEMORY, run_desk, run_gated};
use desk_io::{Sink, Source, StdSink, StdSource};
use desk_keeper::{Keeper, MemoryKeeper};
use desk_words::{Ask, WordsError, read_words};
use minute_line::{Many, Memory};
use progress::Progress;
use serving::serve;
use std::env;
use std::io::{ErrorKind, IsTerminal};
use std::net::{Net, TcpListener, TcpStream};
use std::process::ExitCode;
use std::thread::Threads;
use stores::{close_file, open_file, tell_unopened};

/// The words after the program's name; none where the system does not give them as text.
fn words(rt: &HostRuntime) -> Result<Vec<String>, Memory> {
    let mut words = Vec::new(rt.alloc());
    match env::args(rt) {
        Ok(given) => {
            for word in given.skip(1) {
                words.push(word)?;
            }
        }
        Err(error) if error.kind() == ErrorKind::OutOfMemory => return Err(Memory),
        Err(_) => {}
    }
    Ok(words)
}

/// What is said while a plan is sought: nothing where standard error is no terminal.
fn begun_progress(rt: &HostRuntime) -> Option<Progress<'_>> {
    if rt.stderr().is_terminal() {
        Progress::begin(rt)
    } else {
        None
    }
}

/// A run over a keeper.
fn run_over<R: Threads + Sync, S: Source, K: Sink, B: Keeper>(
    threads: &R,
    rt: &HostRuntime,
    words: &Vec<String>,
    source: &mut S,
    sink: &mut K,
    keeper: &mut B,
) -> u8 {
    match begun_progress(rt) {
        Some(progress) => run_gated(threads, &progress, rt.alloc(), words, source, sink, keeper),
        None => run_desk(threads, rt.alloc(), words, source, sink, keeper),
    }
}

/// A run over the store in the current folder.
fn run_stored<R: Threads + Sync, S: Source, K: Sink>(
    threads: &R,
    rt: &HostRuntime,
    words: &Vec<String>,
    source: &mut S,
    sink: &mut K,
) -> u8 {
    match open_file(rt) {
        Ok(mut keeper) => {
            let status = run_over(threads, rt, words, source, sink, &mut keeper);
            close_file(keeper);
            status
        }
        Err(error) => tell_unopened(rt.alloc(), error, sink),
    }
}

/// A run, or a server. The store is opened only for what asks it: no file is made for words that are no command, for a check or a
/// made week.
fn run<R, S: Source, K: Sink>(
    handles: &R,
    rt: &HostRuntime,
    words: &Vec<String>,
    source: &mut S,
    sink: &mut K,
) -> u8
where
    R: Threads + Net<Listener = TcpListener, Stream = TcpStream> + Sync,
{
    match read_words(rt.alloc(), words) {
        Ok(Ask::Plan(_) | Ask::Publish(_, _) | Ask::Show(_) | Ask::Export(_)) => {
            run_stored(handles, rt, words, source, sink)
        }
        Ok(Ask::Serve(port, count)) => serve(handles, rt, port, count, sink),
        // A run reads the words again: it must not answer from a keeper of nothing what the store was to be asked.
        Err(WordsError::Memory) => WANT_OF_MEMORY,
        Ok(Ask::Check | Ask::Make(_, _)) | Err(WordsError::Usage) => {
            let mut keeper = MemoryKeeper::new(rt.alloc(), Many::new(rt.alloc()));
            run_over(handles, rt, words, source, sink, &mut keeper)
        }
    }
}

fn main(rt: HostRuntime) -> ExitCode {
    let Ok(words) = words(&rt) else {
        return ExitCode::from(WANT_OF_MEMORY);
    };
    let mut source = StdSource {
        inner: rt.stdin(),
        faults: 0,
    };
    let mut sink = StdSink {
        inner: rt.stdout(),
        faults: 0,
    };
    ExitCode::from(run(&rt, &rt, &words, &mut source, &mut sink))
}

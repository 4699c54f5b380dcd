// What is answered to a request by the desk's reply, or before its command.
ghost use Rattle.std.specs.Prelude.{◌≡◌, ◌≤◌, [], vec_capacity, IfOk, OnErr};
ghost use Rattle.desk_core.specs.Lines.{keeper_fault_line};
ghost use Rattle.desk_http.specs.Answers.{kind_of, early_line, HasBody};
ghost use Rattle.desk_http.specs.Answering.{refused_kind, IsReplied, IsUnsaid};

use crate::answers::{Answer, Kind, answer_with};
use crate::early::Early;
use desk_core::{Command, Refusal, Reply, refusal_line};
use minute_line::{Bytes, Memory};
use std::alloc::Global;

/// The line of an early answer.
fn early_line(early: Early) -> &'static [u8]
    ensures { result.now ≡ early_line early }
{
    match early {
        Early::Bad => b"bad request\n",
        Early::Lost => b"not found\n",
        Early::Method(_) => b"method\n",
        Early::Long => b"too long\n",
    }
}

/// The answer to a request whose command is not played.
pub(crate) fn early_answer(alloc: Global, room: Vec<u8>, early: Early) -> Result<Answer, Memory>
    requires empty { room.items ≡ [] }
    requires room { 256 ≤ vec_capacity room }
    ensures { IfOk result (HasBody (kind_of early) (early_line early)) }
{
    let body = Bytes::from_slice(alloc, early_line(early))?;
    Ok(answer_with(room, Kind::of(early), body))
}

/// The kind of answer to a refused command.
fn refused_kind(command: &Command, refusal: &Refusal) -> Kind
    ensures { result ≡ refused_kind command.now refusal.now }
{
    match refusal {
        Refusal::Long
        | Refusal::Csv(_)
        | Refusal::Week(_)
        | Refusal::Past(_, _)
        | Refusal::Line(_, _) => Kind::Bad,
        Refusal::NoDraft(_) => match command {
            Command::Show(_) | Command::Export(_) => Kind::Lost,
            Command::Plan(_, _) | Command::Check(_) | Command::Publish(_, _) => Kind::Conflict,
        },
        Refusal::Published(_, _)
        | Refusal::Stale(_, _)
        | Refusal::Moved(_)
        | Refusal::Kept(_)
        | Refusal::Later(_, _)
        | Refusal::NoHistory(_)
        | Refusal::DraftsFull(_) => Kind::Conflict,
    }
}

/// The answer to a command by the desk's reply. A reply that changed the tables, or a fault of the keeper, takes no memory.
pub(crate) fn reply_answer(
    alloc: Global,
    room: Vec<u8>,
    fault: Bytes,
    command: &Command,
    reply: Reply,
) -> Result<Answer, Memory>
    requires empty { room.items ≡ [] }
    requires room { 256 ≤ vec_capacity room }
    requires fault { fault ≡ keeper_fault_line }
    ensures ok { IfOk result (IsReplied command.now reply) }
    ensures err { OnErr result (IsUnsaid reply) }
{
    match reply {
        Reply::Done(text) => Ok(answer_with(room, Kind::Done, text)),
        Reply::Refused(refusal) => {
            let line = refusal_line(alloc, &refusal)?;
            Ok(answer_with(room, refused_kind(command, &refusal), line))
        }
        Reply::KeeperFault => Ok(answer_with(room, Kind::Fault, fault)),
        Reply::Memory => Err(Memory),
    }
}

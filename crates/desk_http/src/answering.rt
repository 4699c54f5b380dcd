// The answer to a request.
ghost use Rattle.std.specs.Prelude.{◌≡◌, ◌≤◌, IfOk};
ghost use Rattle.desk_http.specs.Answering.{Answers, PlansWeek, faults_after};

use crate::answers::{Answer, head_room};
use crate::early::Halt;
use crate::replies::{early_answer, reply_answer};
use crate::requests::asked;
use desk_core::{KEEPER_FAULT, step};
use desk_keeper::Keeper;
use duty_plan::{Gate, Planner};
use minute_line::{Bytes, Memory};
use std::alloc::Global;
use std::thread::Threads;

/// The answer to a request. The room for its head is made before the command, and so is the line for a keeper that fails: want of
/// memory leaves the keeper's tables and its count of faults as they were.
pub fn answer<R: Threads + Sync, B: Keeper, P: Planner>(
    rt: &R,
    gate: &(dyn Gate + Sync),
    alloc: Global,
    request: &Bytes,
    keeper: &mut B,
    planner: &mut P,
) -> Result<Answer, Memory>
    ensures answer { Answers request.now (B.tables keeper.old) result (B.tables keeper.new) }
    ensures planned { IfOk result (PlansWeek request.now) }
    ensures counts { B.faults keeper.new ≡ faults_after (B.faults keeper.old) result }
    ensures counted { B.faults keeper.old ≤ B.faults keeper.new }
{
    let room = head_room(alloc)?;
    let fault = Bytes::from_slice(alloc, KEEPER_FAULT)?;
    match asked(alloc, request.as_slice()) {
        Ok(command) => {
            let reply = step(rt, gate, alloc, keeper, planner, &command);
            reply_answer(alloc, room, fault, &command, reply)
        }
        Err(Halt::Early(early)) => early_answer(alloc, room, early),
        Err(Halt::Memory) => Err(Memory),
    }
}

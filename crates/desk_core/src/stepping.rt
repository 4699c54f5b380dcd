// One command, one step of the machine.
ghost use Rattle.std.specs.Prelude.{◌≡◌, ◌≤◌, length, IfOk, IfSome};
ghost use Rattle.desk_csv.specs.declared.reading.TheConstants.{TEXT_LIMIT};
ghost use Rattle.desk_keeper.specs.Records.{draft_fields};
ghost use Rattle.desk_keeper.specs.Changes.{IsNext};
ghost use Rattle.duty_plan.specs.Trees.{IsLimits};
ghost use Rattle.desk_core.specs.Causes.{HasCause, RefusedFor};
ghost use Rattle.desk_core.specs.Answering.{IsPlannedWeek, IsPlanRefusal, IsAnswer, OnCheck};
ghost use Rattle.desk_core.specs.Machine.{IsCommand, IsReply, Steps, Puts, Drafts, reply_said, failed_after};
ghost use Rattle.desk_core.specs.Replies.{IsOutcome, failed_by};

use crate::checking::check_text;
use crate::commands::{Command, Reply};
use crate::drafting::{AllFound, WeekText, histories_for, next_revision, read_week_text};
use crate::drafts::draft_from;
use crate::publishing::publish;
use crate::refusals::Stop;
use crate::showing::{export_kept, show};
use desk_keeper::{Draft, Keeper};
use duty_plan::{Case, Gate, Limits, Planner};
use minute_line::Bytes;
use std::alloc::Global;
use std::thread::Threads;

/// Keeps a draft. Its report, which stands before that, is the reply, so no want of memory follows.
fn put<B: Keeper>(alloc: Global, keeper: &mut B, draft: Draft) -> Result<Bytes, Stop>
    requires next { IfSome (B.tables keeper.old) (IsNext (draft_fields draft)) }
    ensures step { IsOutcome (Puts (draft_fields draft)) (B.tables keeper.old) result (B.tables keeper.new) }
    ensures told { IfOk result (λ told. told ≡ draft.report) }
    ensures refused { RefusedFor (λ _. ⊥) result }
    ensures counts { B.faults keeper.new ≡ failed_by (B.faults keeper.old) result }
    ensures counted { B.faults keeper.old ≤ B.faults keeper.new }
{
    keeper.put_draft(alloc, &draft)?;
    Ok(draft.report)
}

/// Plans the week of a week text, and keeps the draft.
fn plan<R: Threads + Sync, B: Keeper, P: Planner>(
    rt: &R,
    gate: &(dyn Gate + Sync),
    alloc: Global,
    keeper: &mut B,
    planner: &mut P,
    text: &Bytes,
    limits: &Limits,
) -> Result<Bytes, Stop>
    requires text { length text.now ≤ TEXT_LIMIT }
    requires limits { IsLimits limits.now }
    ensures step { IsOutcome (Drafts limits.now text.now) (B.tables keeper.old) result (B.tables keeper.new) }
    ensures planned { IfOk result (IsPlannedWeek limits.now text.now) }
    ensures refused { RefusedFor (IsPlanRefusal text.now) result }
    ensures cause { RefusedFor HasCause result }
    ensures counts { B.faults keeper.new ≡ failed_by (B.faults keeper.old) result }
    ensures counted { B.faults keeper.old ≤ B.faults keeper.new }
{
    let WeekText { week, past } = read_week_text(alloc, text)?;
    let monday = week.monday;
    let revision = next_revision(alloc, keeper, monday)?;
    let drivers = week.drivers.as_slice();
    let AllFound { past, seen } = histories_for(alloc, keeper, monday, drivers, past.as_slice())?;
    let case = Case { week, past };
    let outcome = planner.solve(rt, gate, alloc, &case, limits)?;
    let draft = draft_from(alloc, &case, &outcome, seen.as_slice(), revision)?;
    put(alloc, keeper, draft)
}

/// What a command came to, as a reply.
fn reply_of(done: Result<Bytes, Stop>) -> Reply
    ensures { result ≡ reply_said done }
{
    match done {
        Ok(text) => Reply::Done(text),
        Err(Stop::Refused(refusal)) => Reply::Refused(refusal),
        Err(Stop::Fault) => Reply::KeeperFault,
        Err(Stop::Memory) => Reply::Memory,
    }
}

/// What a command comes to.
fn run<R: Threads + Sync, B: Keeper, P: Planner>(
    rt: &R,
    gate: &(dyn Gate + Sync),
    alloc: Global,
    keeper: &mut B,
    planner: &mut P,
    command: &Command,
) -> Result<Bytes, Stop>
    requires { IsCommand command.now }
    ensures step { IsOutcome (Steps command.now) (B.tables keeper.old) result (B.tables keeper.new) }
    ensures answer { IsAnswer command.now (reply_said result) }
    ensures unasked { OnCheck command.now (keeper.new ≡ keeper.old) }
    ensures counts { B.faults keeper.new ≡ failed_by (B.faults keeper.old) result }
    ensures counted { B.faults keeper.old ≤ B.faults keeper.new }
{
    match command {
        Command::Plan(text, limits) => plan(rt, gate, alloc, keeper, planner, text, limits),
        Command::Check(text) => check_text(alloc, text),
        Command::Publish(monday, revision) => publish(alloc, keeper, *monday, *revision),
        Command::Show(monday) => show(alloc, keeper, *monday),
        Command::Export(monday) => export_kept(alloc, keeper, *monday),
    }
}

/// Plays one command: one step of the desk machine over the keeper's tables, where they are told. Where the keeper fails or
/// memory wants, the tables are as they were. Over every keeper a refusal has its cause in the command, as far as what is kept
/// isn't asked for, and a plan that is done is one of the text's week. Its own work grows with its text and, for each
/// driver of the week, with the tables; a report looks each order up among the steps.
pub fn step<R: Threads + Sync, B: Keeper, P: Planner>(
    rt: &R,
    gate: &(dyn Gate + Sync),
    alloc: Global,
    keeper: &mut B,
    planner: &mut P,
    command: &Command,
) -> Reply
    requires { IsCommand command.now }
    ensures answer { IsAnswer command.now result }
    ensures step { IsReply command.now (B.tables keeper.old) result (B.tables keeper.new) }
    ensures counts { B.faults keeper.new ≡ failed_after (B.faults keeper.old) result }
    ensures counted { B.faults keeper.old ≤ B.faults keeper.new }
    ensures unasked { OnCheck command.now (keeper.new ≡ keeper.old) }
{
    reply_of(run(rt, gate, alloc, keeper, planner, command))
}

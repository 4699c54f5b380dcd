// Commands, one after another.
ghost use Rattle.std.specs.Prelude.{◌≡◌, ◌≤◌, ◌⊎◌, length, take, All, IfOk, IfSome, OnErr};
ghost use Rattle.desk_core.specs.Machine.{IsCommand, Replied, EndsPlay, ends_play};
ghost use Rattle.desk_laws.specs.Playing.{IsPlay, failed_after_all};

use desk_core::{Command, Reply, step};
use desk_keeper::Keeper;
use duty_plan::{Gate, Planner};
use minute_line::Memory;
use std::alloc::Global;
use std::thread::Threads;

/// Whether nothing more is played after a reply.
fn is_last(reply: &Reply) -> bool
    ensures { result ≡ ends_play reply.now }
{
    matches!(reply, Reply::KeeperFault | Reply::Memory)
}

/// Plays commands over one keeper, one after another: the reply to each, up to the first for which the keeper failed or memory was
/// wanted. Where the keeper tells its tables, the replies before that one are those of the desk machine, and so are the tables. Room
/// for the replies is made before the first command; where it is wanted, none is played.
pub fn play<R: Threads + Sync, B: Keeper, P: Planner>(
    rt: &R,
    gate: &(dyn Gate + Sync),
    alloc: Global,
    keeper: &mut B,
    planner: &mut P,
    commands: &[Command],
) -> Result<Vec<Reply>, Memory>
    requires { All IsCommand commands.now }
    ensures plays { IfSome (B.tables keeper.old) (λ before. IfOk result (λ replies. IsPlay commands.now before replies.items (B.tables keeper.new))) }
    ensures replied { IfOk result (λ replies.
        Replied (take (length replies.items) commands.now) (B.tables keeper.old) replies.items (B.tables keeper.new)) }
    ensures whole { IfOk result (λ replies. (length replies.items ≡ length commands.now) ⊎ EndsPlay replies.items) }
    ensures counts { IfOk result (λ replies. B.faults keeper.new ≡ failed_after_all (B.faults keeper.old) replies.items) }
    ensures unplayed { OnErr result (keeper.new ≡ keeper.old) }
{
    let mut replies = Vec::with_capacity(alloc, commands.len())?;
    for command in commands {
        let reply = step(rt, gate, alloc, keeper, planner, command);
        let ends = is_last(&reply);
        replies.push_reserved(reply);
        if ends {
            return Ok(replies);
        }
    }
    Ok(replies)
}

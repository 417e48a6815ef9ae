//! The commands and their replies. Each has a file of its own with its `reply`; `hc_text::commands` defines how it is written.
ghost use Rattle.std.specs.Prelude.{◌≡◌, ◌++◌, IfErr, OnOk, string_bytes};
ghost use Rattle.hc_program.specs.Commands.{session_left_by, printed};
ghost use Rattle.hc_program.specs.Stops.{StopsIn};

mod arrive;
mod cycle;
pub mod declare;
mod edits;
mod layout;
mod memory;
mod name;
mod place;
mod post;
mod program;
mod read;
mod regs;
mod scan;
mod send;
mod show;
mod take;
mod view;
mod write;

use crate::session::Session;
use crate::stops::Stop;
use hc_text::commands::Command;
use std::alloc::Global;
use std::sync::Wait;
use std::thread::Threads;

/// Carries out a command and appends its reply. Nothing is published yet. Returns a `Stop` if an allocation fails or a seat
/// gets no view. A command of one call has then done nothing, and any other command what it had done before (`StopsIn`). `out`
/// may have a prefix of the reply.
pub fn obey<R: Threads + Wait + Sync>(
    rt: &R,
    alloc: Global,
    command: &Command,
    session: &mut Session,
    out: &mut String,
) -> Result<(), Stop>
    ensures text { OnOk result (string_bytes out.new ≡ string_bytes out.old ++ printed session.old command.now) }
    ensures next { OnOk result (session.new ≡ session_left_by session.old command.now) }
    ensures stops { IfErr result (λ stop. StopsIn session.old command.now stop session.new) }
{
    match command {
        Command::Scan => Ok(scan::reply(rt, alloc, session, out)?),
        Command::Name => Ok(name::reply(rt, alloc, session, out)?),
        Command::Program => Ok(program::reply(rt, alloc, session, out)?),
        Command::Cycle(tasks) => Ok(cycle::reply(rt, alloc, tasks, session, out)?),
        Command::Poke(poke) => Ok(memory::reply_poke(poke, session, out)?),
        Command::Peek(peek) => Ok(memory::reply_peek(peek, session, out)?),
        Command::Edit(edit) => Ok(edits::reply(alloc, edit, session, out)?),
        Command::Layout => Ok(layout::reply(session.core().plan(), out)?),
        Command::Regs { station } => Ok(regs::reply(session.core().plan(), *station, out)?),
        Command::Show { task, datagram } => Ok(show::reply(session.core(), *task, *datagram, out)?),
        Command::Place { variable } => Ok(place::reply(session.core().plan(), *variable, out)?),
        Command::Send(tasks) => Ok(send::reply(alloc, tasks, session, out)?),
        Command::Write => Ok(write::reply(session, out)?),
        Command::Arrive(bytes) => Ok(arrive::reply(alloc, bytes.as_slice(), session, out)?),
        Command::Read { task } => Ok(read::reply(alloc, *task, session.core(), out)?),
        Command::Post(posting) => post::reply(alloc, posting, session, out),
        Command::Take => Ok(take::reply(session, out)?),
        Command::View { task, variable } => view::reply(*task, *variable, session, out),
    }
}

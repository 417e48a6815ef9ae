//! Opening of an input's project, and the lines of its failures.
ghost use Rattle.std.specs.Prelude.{◌≡◌, ◌++◌, IfErr, IfOk, OnOk, false, string_bytes, true};
ghost use Rattle.hc_conductor.specs.Mastering.{master_history};
ghost use Rattle.hc_program.specs.Sessions.{MasterIsAtOpening};
ghost use Rattle.hc_program.specs.Standings.{opened_session_state};
ghost use Rattle.hc_program.specs.Opening.{IsRefusalOf, IsRefusalOfOpening, over_limit_at_opening, with_refused_growth, is_project_memory, is_refused_growth, opened_unless, opening_of, unopened_text};

use crate::refusals::push_project_fault;
use crate::session::Session;
use hc_conductor::one_thread::master::Master;
use hc_project::read_project;
use hc_publish::faults::OpenFault;
use hc_records::faults::ProjectFault;
use hc_records::project::Project;
use std::alloc::{AllocError, Global};
use std::sync::Wait;
use thiserror::Error;

/// The reason for which a project is not opened.
#[derive(Clone, Copy, Debug, PartialEq, Eq, Error)]
pub enum Unopened {
    /// The text is no project.
    #[error("{0}")]
    Project(ProjectFault),
    /// A task of the opening line needs more than 16 datagrams: the lowest such task.
    #[error("task {0} needs too many datagrams")]
    TooManyDatagrams(u8),
    /// An allocation failed while the project was opened.
    #[error("out of memory")]
    Memory,
    /// A task's seat was refused, of a project that can be opened. It never occurs in practice.
    #[error("a seat was refused")]
    NoSeat,
}

impl Unopened {
    ghost use Rattle.std.specs.Prelude.{◌≡◌};
    ghost use Rattle.hc_program.specs.Opening.{is_refused_growth};

    /// Returns whether an allocation failed or a seat was refused.
    pub fn is_refused_growth(self) -> bool
        ensures { result ≡ is_refused_growth self }
    {
        match self {
            Unopened::Project(fault) => is_project_memory(fault),
            Unopened::TooManyDatagrams(_) => false,
            Unopened::Memory => true,
            Unopened::NoSeat => true,
        }
    }
}

/// Returns whether a project text was refused with `Memory`.
fn is_project_memory(fault: ProjectFault) -> bool
    ensures { result ≡ is_project_memory fault }
{
    fault == ProjectFault::Memory
}

/// Opens a project: returns the conductor and the seats.
fn open_project<R: Wait>(rt: &R, alloc: Global, project: Project) -> Result<Master, Unopened>
    ensures opened { IfOk result (λ master. opened_unless (over_limit_at_opening project) project ≡ Ok (master_history master)) }
    ensures fresh { IfOk result MasterIsAtOpening }
    ensures refused { IfErr result (λ fault. is_refused_growth fault ≡ false → opened_unless (over_limit_at_opening project) project ≡ Err fault) }
    ensures reason { IfErr result (IsRefusalOfOpening project) }
{
    match hc_conductor::one_thread::open(rt, alloc, project) {
        Ok(master) => Ok(master),
        Err(OpenFault::TooManyDatagrams(task)) => Err(Unopened::TooManyDatagrams(task)),
        Err(OpenFault::Memory) => Err(Unopened::Memory),
        Err(OpenFault::NoSeat) => Err(Unopened::NoSeat),
    }
}

/// Opens the project of a text: returns the conductor and the seats, or the fault. `NoSeat` is returned only if the project can
/// be opened, and every other fault than the text's only if the text is a project.
#[tactic(auto, using(crate::proofs::Openings::refusal_of_text), unfolding(crate::specs::Opening::opening_of))]
fn open_text<R: Wait>(rt: &R, alloc: Global, text: &[u8]) -> Result<Master, Unopened>
    ensures opened { IfOk result (λ master. opening_of text.now ≡ Ok (master_history master)) }
    ensures fresh { IfOk result MasterIsAtOpening }
    ensures refused { IfErr result (λ fault. is_refused_growth fault ≡ false → opening_of text.now ≡ Err fault) }
    ensures reason { IfErr result (IsRefusalOf text.now) }
{
    match read_project(alloc, text) {
        Ok(project) => open_project(rt, alloc, project),
        Err(fault) => Err(Unopened::Project(fault)),
    }
}

/// Opens the project of a text: returns its session, or the fault. `NoSeat` is returned only if the project can be opened, and
/// every other fault than the text's only if the text is a project.
pub fn open_session<R: Wait>(rt: &R, alloc: Global, text: &[u8]) -> Result<Session, Unopened>
    ensures opened { IfOk result (λ session. opening_of text.now ≡ Ok session.history) }
    ensures begun { IfOk result (λ session. session ≡ opened_session_state session.history) }
    ensures refused { IfErr result (λ fault. is_refused_growth fault ≡ false → opening_of text.now ≡ Err fault) }
    ensures reason { IfErr result (IsRefusalOf text.now) }
{
    let master = open_text(rt, alloc, text)?;
    match Session::begin(rt, alloc, master) {
        Ok(session) => Ok(session),
        Err(_) => Err(Unopened::Memory),
    }
}

/// Appends the line of a project that is not opened, as `open fault 1 TooManyDatagrams 0`. `AllocError` if an allocation fails;
/// then `out` may have a prefix of the line.
#[tactic(auto, unfolding(crate::specs::Opening::unopened_text))]
pub fn push_unopened(unopened: Unopened, out: &mut String) -> Result<(), AllocError>
    ensures { OnOk result (string_bytes out.new ≡ string_bytes out.old ++ unopened_text unopened) }
{
    match unopened {
        Unopened::Project(fault) => push_project_fault(fault, out),
        Unopened::TooManyDatagrams(task) => write!(out, "open fault 1 TooManyDatagrams {task}\n"),
        Unopened::Memory => out.push_str("open fault 2 Memory\n"),
        Unopened::NoSeat => out.push_str("open fault 3 NoSeat\n"),
    }
}

/// Returns the line for an allocation that failed while the line of a project that is not opened was made. It is a constant, so
/// no allocation is needed.
#[tactic(auto, unfolding(crate::specs::Opening::unopened_text, crate::specs::Refusals::project_fault_words))]
pub fn memory_text(unopened: Unopened) -> &'static [u8]
    ensures { result.now ≡ unopened_text (with_refused_growth unopened) }
{
    match unopened {
        Unopened::Project(_fault) => b"project fault 11 Memory\n",
        Unopened::TooManyDatagrams(_) => b"open fault 2 Memory\n",
        Unopened::Memory => b"open fault 2 Memory\n",
        Unopened::NoSeat => b"open fault 3 NoSeat\n",
    }
}

//! `declare`: a further group, read from the lines of its document.
ghost use Rattle.std.specs.Prelude.{◌≡◌, ◌++◌, OnErr, OnOk, string_bytes};
ghost use Rattle.hc_project.specs.Text.{group_in};
ghost use Rattle.hc_program.specs.Runs.{reply_to_document};

use super::edits;
use crate::refusals::say_declare_fault;
use crate::session::Session;
use hc_project::read_group;
use hc_records::edit::Edit;
use std::alloc::{AllocError, Global};

/// Declares the group of a document and appends the changes, the fault of the edit, or the fault of the document. `AllocError`
/// if an allocation fails, also while the document is read; then nothing was accepted, and `out` may have a prefix of the line.
pub fn reply(
    alloc: Global,
    document: &[u8],
    session: &mut Session,
    out: &mut String,
) -> Result<(), AllocError>
    ensures text { OnOk result (string_bytes out.new ≡ string_bytes out.old ++ (reply_to_document session.old (group_in document.now)).text) }
    ensures next { OnOk result (session.new ≡ (reply_to_document session.old (group_in document.now)).session_state) }
    ensures unchanged { OnErr result (session.new ≡ session.old) }
{
    match read_group(alloc, document) {
        Ok(group) => edits::reply(alloc, &Edit::Declare(group), session, out),
        Err(fault) => say_declare_fault(fault, out),
    }
}

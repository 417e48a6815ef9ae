//! Project text as a whole: the document that TOML reads, its groups, and the project that they
//! make, or the one group that it declares, or the lowest fault.
ghost use Rattle.std.specs.Prelude.{◌≡◌, ◌≢◌, IfErr, IfOk};
ghost use Rattle.std.specs.Option.{ok_or};
ghost use Rattle.hc_project.specs.Text.{group_in, only_group, project_in, groups_or_fault};
ghost use Rattle.hc_records.specs.declared.faults.ProjectFault.TheVariants.{Memory, NotOneGroup};

use crate::levels::read_groups;
use crate::reading::Reading;
use hc_records::faults::ProjectFault;
use hc_records::items::Items;
use hc_records::project::Project;
use hc_records::records::Group;
use std::alloc::Global;
use toml::Value;

/// Returns the project of the text that was read, or the lowest fault.
pub fn settle(alloc: Global, groups: Reading<Items<Group>>) -> Result<Project, ProjectFault>
    ensures project { IfOk result (λ project. groups_or_fault groups ≡ Ok project) }
    ensures refused { IfErr result (λ fault. fault ≢ Memory → groups_or_fault groups ≡ Err fault) }
{
    let Reading {
        value,
        syntax_faults,
    } = groups;
    if syntax_faults.missing.is_some() {
        return Err(ProjectFault::MissingField);
    }
    if syntax_faults.outside.is_some() {
        return Err(ProjectFault::OutOfRange);
    }
    Project::checked(alloc, value)
}

/// Returns the project of a text: the bytes of a TOML document in UTF-8, as docs/use/PROJECT_TEXT.md describes it. Each byte
/// and each value is read once; repeated names are found in n log n steps. Fails with the lowest fault that holds over the
/// whole text; then nothing of it is stored:
///
/// - `NotToml`: the bytes are not UTF-8, or TOML refuses them.
/// - `MissingField`: a needed key is absent, or a value is of another kind.
/// - `OutOfRange` to `AreaTooBig`: as in `Project::checked`.
/// - `Memory`, whatever the text: an allocation failed.
#[tactic(auto, using(crate::proofs::Texts::unread))]
pub fn read_project(alloc: Global, text: &[u8]) -> Result<Project, ProjectFault>
    ensures project { IfOk result (λ project. project_in text.now ≡ Ok project) }
    ensures refused { IfErr result (λ fault. fault ≢ Memory → project_in text.now ≡ Err fault) }
{
    let table = match toml::table_from_slice(alloc, text) {
        Ok(table) => table,
        Err(error) => {
            if error.is_memory() {
                return Err(ProjectFault::Memory);
            }
            return Err(ProjectFault::NotToml);
        }
    };
    let groups = read_groups(alloc, &Value::Table(table))?;
    settle(alloc, groups)
}

/// Returns the one group after a mandatory group without slaves, or `NotOneGroup` if the groups are others.
fn only_group(groups: Items<Group>) -> Result<Group, ProjectFault>
    ensures { result ≡ ok_or (only_group groups) NotOneGroup }
{
    let mut groups = groups.into_vec();
    if groups.len() != 2 || !groups[0].slaves.is_empty() {
        return Err(ProjectFault::NotOneGroup);
    }
    groups.pop().ok_or(ProjectFault::NotOneGroup)
}

/// Returns the group of a text: a project's text, as docs/use/PROJECT_TEXT.md describes it, with exactly one group and no
/// mandatory slave. Fails with the lowest fault that holds over the whole text, as `read_project` does, or after all of these
/// with `NotOneGroup` for the text of another project. `Memory` may be returned instead of any of them, if an allocation fails.
pub fn read_group(alloc: Global, text: &[u8]) -> Result<Group, ProjectFault>
    ensures group { IfOk result (λ group. group_in text.now ≡ Ok group) }
    ensures refused { IfErr result (λ fault. fault ≢ Memory → group_in text.now ≡ Err fault) }
{
    let project = read_project(alloc, text)?;
    only_group(project.into_groups())
}

//! Plans at the opening of their projects, and groups to declare.
use hc_plan::plan::Plan;
use hc_project::{read_group, read_project};
use hc_records::faults::{EditFault, ProjectFault};
use hc_records::project::Project;
use hc_records::records::Group;
use std::alloc::Global;
use thiserror::Error;

/// The fault of a project without a plan.
#[derive(Debug, Drop, Error)]
pub enum Refused {
    /// The project was refused.
    #[error("{0}")]
    Project(ProjectFault),
    /// The opening was refused.
    #[error("{0}")]
    Opening(EditFault),
}

/// The plan of a project at its opening.
pub fn opened(alloc: Global, project: Result<Project, ProjectFault>) -> Result<Plan, Refused> {
    let project = match project {
        Ok(project) => project,
        Err(fault) => return Err(Refused::Project(fault)),
    };
    match Plan::new(alloc, project) {
        Ok(plan) => Ok(plan),
        Err(fault) => Err(Refused::Opening(fault)),
    }
}

/// The plan of a project text.
pub fn plan_of(alloc: Global, text: &str) -> Result<Plan, Refused> {
    opened(alloc, read_project(alloc, text.as_bytes()))
}

/// The group of a text.
pub fn group_of(alloc: Global, text: &str) -> Result<Group, Refused> {
    match read_group(alloc, text.as_bytes()) {
        Ok(group) => Ok(group),
        Err(fault) => Err(Refused::Project(fault)),
    }
}

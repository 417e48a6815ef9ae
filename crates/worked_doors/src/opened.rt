//! A plan at the opening of its project.
ghost use Rattle.std.specs.Prelude.{IfOk};
ghost use Rattle.hc_publish.specs.ChangesSince.{IsOpening};

use hc_plan::plan::Plan;
use hc_project::read_project;
use std::alloc::Global;
use std::test::Fail;

/// A slave with 2 output bits in task 0, and a tool that is absent at first, with 8 input bits in task 1.
pub const AXIS: &str = r#"
[[slave]]
station = 1001

[[slave.area]]
sm = 2
dir = "out"
phys = 0x1100
task = 0
assigned = [0x1600]
pdo = [{ index = 0x1600, entries = [[1, 2]] }]

[[group]]
alias = 100

[[group.slave]]
station = 2001

[[group.slave.area]]
sm = 3
dir = "in"
phys = 0x1180
task = 1
assigned = [0x1a00]
pdo = [{ index = 0x1a00, entries = [[11, 8]] }]
"#;

/// The plan of the slaves' project.
pub fn axis_plan(alloc: Global) -> Result<Plan, Fail>
    ensures { IfOk result IsOpening }
{
    let project = read_project(alloc, AXIS.as_bytes())?;
    Ok(Plan::new(alloc, project)?)
}

//! A finder of places of a line's areas. Areas of a task and a direction that are asked for in the order of their keys take few
//! reads. The parts of an edit's change use it.
use crate::cursor::Cursor;
use crate::packing::Placed;
use crate::tasks::LineCuts;
use hc_records::keys::Key;
use hc_records::records::Dir;
use hc_records::task::Task;
use std::marker::Model;

/// The tasks of a line, lent, and for each task a cursor among its outputs and one among its inputs. Contracts see the tasks.
#[derive(Drop)]
pub struct Finder<'a> {
    cuts: &'a LineCuts,
    outputs: [Cursor; 8],
    inputs: [Cursor; 8],
}

impl<'a> Model for Finder<'a> {
    ghost use Rattle.std.specs.Prelude.{List};
    ghost use Rattle.hc_cuts.specs.Starts.{TaskCuts};
    ghost use Rattle.hc_cuts.specs.LineCursors.{AreInTasks};

    ghost Value = { List TaskCuts };

    ghost view = { λ finder. finder.cuts.now };

    ghost invariant = { λ finder. AreInTasks finder.cuts.now finder.outputs × AreInTasks finder.cuts.now finder.inputs };
}

impl<'a> Finder<'a> {
    ghost use Rattle.std.specs.Prelude.{◌≡◌, List};
    ghost use Rattle.hc_cuts.specs.Place.{place_of};
    ghost use Rattle.hc_cuts.specs.Areas.{list_by, AreaLine};
    ghost use Rattle.hc_cuts.specs.TaskCuts.{line_cuts};

    /// Returns a finder among the tasks of a line. It allocates nothing.
    pub fn of(cuts: &'a LineCuts) -> Finder<'a>
        ensures { result ≡ cuts.now }
    {
        Finder {
            cuts,
            outputs: cuts.cursors(),
            inputs: cuts.cursors(),
        }
    }

    /// Returns the place of an area in a task by its key, as `LineCuts::place` does, or `None` if the task has no such area. It
    /// allocates nothing.
    pub fn place(&mut self, task: Task, key: Key) -> Option<Placed>
        ensures tasks { self.new ≡ self.old }
        ensures place { (line : AreaLine) → self.old ≡ line_cuts line → result ≡ place_of key (list_by task line) }
    {
        match key.dir {
            Dir::Out => self.cuts.place_from(&mut self.outputs, task, key),
            Dir::In => self.cuts.place_from(&mut self.inputs, task, key),
        }
    }
}

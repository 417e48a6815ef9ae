//! `PlacedLine`: places of the areas of a line, read from the trees of its tasks. The register blocks of an opened
//! line and the shares of working counters are made from it.
use hc_cuts::packing::Placed;
use hc_cuts::tasks::LineCuts;
use hc_records::keys::Key;
use hc_records::records::Declared;
use hc_records::task::Task;
use std::marker::Model;

/// The areas of the line of declared groups with their places, lent. Contracts see it as the layout of that
/// line: the areas of each task with their places.
#[derive(Drop)]
pub(crate) struct PlacedLine<'a> {
    groups: &'a [Declared],
    cuts: &'a LineCuts,
}

impl<'a> Model for PlacedLine<'a> {
    ghost use Rattle.std.specs.Prelude.{◌≡◌, List};
    ghost use Rattle.hc_records.specs.Line.{line_from};
    ghost use Rattle.hc_records.specs.Packing.{Placed};
    ghost use Rattle.hc_places.specs.Layout.{layout_of};
    ghost use Rattle.hc_cuts.specs.Areas.{areas_by_rank};
    ghost use Rattle.hc_cuts.specs.TaskCuts.{line_cuts};

    ghost Value = { List (List Placed) };

    ghost view = { λ placed_line. layout_of (line_from 1 placed_line.groups.now) };

    ghost invariant = { λ placed_line. placed_line.cuts.now ≡ line_cuts (areas_by_rank placed_line.groups.now) };
}

impl<'a> PlacedLine<'a> {
    ghost use Rattle.std.specs.Prelude.{◌≡◌};
    ghost use Rattle.hc_records.specs.Line.{line_from};
    ghost use Rattle.hc_places.specs.Layout.{layout_of, placed_in};
    ghost use Rattle.hc_cuts.specs.Areas.{areas_by_rank};
    ghost use Rattle.hc_cuts.specs.TaskCuts.{line_cuts};

    /// Returns the places of the line of these groups, whose tasks are stored in these trees.
    pub(crate) fn of(groups: &'a [Declared], cuts: &'a LineCuts) -> PlacedLine<'a>
        requires { cuts.now ≡ line_cuts (areas_by_rank groups.now) }
        ensures { result ≡ layout_of (line_from 1 groups.now) }
    {
        PlacedLine { groups, cuts }
    }

    /// The place of the area with a key in a task; none if the task has no such area, or the area has 0 bits.
    pub(crate) fn placed(&self, task: Task, key: Key) -> Option<Placed>
        ensures { result ≡ placed_in self.now task key }
    {
        // says that the task's number is below 8
        let _ = task.number();
        self.cuts.place(task, key)
    }
}

//! Updates of the areas' state when register blocks are sent and when they are answered. `writing` and `arriving` call them.
ghost use Rattle.std.specs.Prelude.{◌≡◌, [], ◌∷◌};
ghost use Rattle.hc_core.specs.Held.{CanConfirmAreas, CanMarkAreas, areas_done, areas_if, areas_sent};

use hc_events::answer::Outcome;
use hc_owed::readiness::Readiness;
use hc_sendings::write_frames::PlacedBlock;
use hc_sendings::writes::AwaitedBlock;

/// Marks blocks as sent: from then on their registers may hold their bytes too. There are at most 74 blocks, which bounds the
/// recursion.
pub(crate) fn mark_areas(readiness: &mut Readiness, blocks: &[PlacedBlock])
    requires { CanMarkAreas readiness.old blocks.now }
    ensures { (can : CanMarkAreas readiness.old blocks.now) → readiness.new ≡ areas_sent can }
{
    if let Some((first, rest)) = blocks.split_first() {
        readiness.sent(first.place);
        mark_areas(readiness, rest);
    }
}

/// If a block's write is done, its register holds the block's bytes alone.
fn confirm_area_if(readiness: &mut Readiness, block: &AwaitedBlock, outcome: Outcome)
    requires { CanConfirmAreas readiness.old (block.now ∷ []) }
    ensures { (can : CanConfirmAreas readiness.old (block.now ∷ [])) → readiness.new ≡ areas_if can outcome }
{
    match outcome {
        Outcome::Done => readiness.confirmed(block.place),
        Outcome::Inputs {
            task: _,
            datagram: _,
        } => {}
        Outcome::WrongCount {
            expected: _,
            got: _,
        } => {}
        Outcome::Stale => {}
        Outcome::Missed => {}
    }
}

/// Confirms the areas of a frame's blocks, each by its own outcome. There are at most 74 blocks, which bounds the recursion.
pub(crate) fn confirm_areas(
    readiness: &mut Readiness,
    blocks: &[AwaitedBlock],
    outcomes: &[Outcome],
)
    requires { CanConfirmAreas readiness.old blocks.now }
    ensures { (can : CanConfirmAreas readiness.old blocks.now) → readiness.new ≡ areas_done can outcomes.now }
{
    if let Some((block, later)) = blocks.split_first() {
        if let Some((outcome, others)) = outcomes.split_first() {
            confirm_area_if(readiness, block, *outcome);
            confirm_areas(readiness, later, others);
        }
    }
}

//! Writes the blocks of a plan to the machines of its line.
ghost use Rattle.std.specs.Prelude.{◌≡◌, ◌^◌, ◌<◌, ◌≤◌, [], ◌∷◌, length};
ghost use Rattle.hc_frames.specs.FrameText.{block_write, frame_text};
ghost use Rattle.hc_exchange.specs.WritingLaws.{machines_written};
ghost use Rattle.hc_records.specs.Line.{line};
ghost use Rattle.hc_segment.specs.Line.{machines_after_frame};

use hc_frames::building::build_write;
use hc_frames::limits::LEAST_FRAME;
use hc_plan::plan::Plan;
use hc_registers::blocks::Block;
use hc_segment::Segment;

/// Writes a block of 1 to 16 bytes to the slave with a station address: an FPWR in a frame of its own, with a serial below
/// 2^40, through the segment.
fn write_block(segment: &mut Segment, serial: u64, station: u16, block: &Block)
    requires serial { serial < 2 ^ 40 }
    requires some { 1 ≤ length block.now.bytes }
    requires few { length block.now.bytes ≤ 16 }
    ensures { segment.new ≡ machines_after_frame segment.old (frame_text serial (block_write station block.now.register block.now.bytes ∷ [])) }
{
    let mut frame = [0; LEAST_FRAME as usize];
    let _ = build_write(&mut frame, serial, station, block.register(), block.bytes());
    segment.process(&mut frame);
}

/// Writes every block of the plan's line through the segment, in line and block order: each an FPWR (ETG.1000.4, 5.4) in a
/// frame of its own, with serials from 0 on. It does not allocate.
///
/// If the machines are the line's, in its order, with their station addresses and zeros in the FMMU blocks past their slaves'
/// areas, each has its slave's blocks then, and pairs exactly the bits of its areas. No byte below the FMMU blocks and none of
/// process memory is changed: the laws of `programmed_laws`.
pub fn program(plan: &Plan, segment: &mut Segment)
    ensures { segment.new ≡ machines_written (line plan.now) segment.old }
{
    for n in 0..plan.blocks() {
        if let Some((station, block)) = plan.nth_block(n) {
            write_block(segment, u64::from(n), station, &block);
        }
    }
}

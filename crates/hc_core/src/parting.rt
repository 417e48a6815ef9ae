//! `part_size` and `fill_part`: the part of one task in a proposal, so that tasks can be written side by side.
ghost use Rattle.std.specs.Prelude.{◌≡◌, ◌≤◌, All, length};
ghost use Rattle.hc_frames.specs.declared.limits.TheConstants.{SETUP_SERIAL};
ghost use Rattle.hc_events.specs.Outputs.{sent_data};
ghost use Rattle.hc_events.specs.Points.{line_of};
ghost use Rattle.hc_sendings.specs.PartTexts.{CanBeWritten, part_text};
ghost use Rattle.hc_sendings.specs.Parts.{part_size};
ghost use Rattle.hc_images.specs.Packed.{sent_bytes};
ghost use Rattle.hc_core.specs.Filled.{CanBeFilled};

use crate::filling::Values;
use crate::keeping::Core;
use hc_events::sending::Sending;
use hc_images::outputs::Outputs;
use hc_sendings::filling::fill_part;
use hc_sendings::parts::part_size;

/// Writes a task's part of frames into a slice of its exact size, with the data that outputs have of its
/// datagrams.
fn write_part(out: &mut [u8], frames: &[Sending], task: u8, outputs: &Outputs)
    requires can { All (CanBeWritten (sent_bytes outputs.now)) frames.now }
    requires exact { length out.old ≡ length (part_text (sent_bytes outputs.now) task frames.now) }
    ensures { out.new ≡ part_text (sent_bytes outputs.now) task frames.now }
{
    fill_part(out, frames, task, &Values { outputs });
}

impl Core {
    /// Returns the bytes of a task's part of frames of the present line, such as a present proposal. The part has the task's
    /// datagrams, the 16 bytes before those of a frame whose first datagram is the task's, and the zeros after those of a frame
    /// whose last datagram is. Returns 0 if the task has none. With no more frames than there are serials the sum fits a
    /// `usize`; a proposal has no more. It allocates nothing.
    pub fn part_size(&self, frames: &[Sending], task: u8) -> usize
        requires frames { All (CanBeFilled self.now.history) frames.now }
        requires few { length frames.now ≤ SETUP_SERIAL }
        ensures { result ≡ part_size (line_of self.now.history) task frames.now }
    {
        part_size(&self.plan, frames, task)
    }

    /// Writes a task's part of frames of the present line into a slice of its exact size, each datagram as `fill` writes it.
    /// The parts of a proposal's tasks, joined in their order, are its frames. It allocates nothing.
    pub fn fill_part(&self, frames: &[Sending], task: u8, out: &mut [u8])
        requires frames { All (CanBeFilled self.now.history) frames.now }
        requires exact { length out.old ≡ part_size (line_of self.now.history) task frames.now }
        ensures { out.new ≡ part_text (sent_data self.now.history) task frames.now }
    {
        write_part(out, frames, task, &self.outputs);
    }
}

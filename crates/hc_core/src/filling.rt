//! `Core::fill`: the bytes of proposed frames.
ghost use Rattle.std.specs.Prelude.{◌≡◌, ◌+◌, ◌^◌, ◌<◌, ◌≤◌, All, IfOk, length, map};
ghost use Rattle.hc_records.specs.declared.limits.TheConstants.{TASKS};
ghost use Rattle.hc_frames.specs.Sizes.{frame_bytes};
ghost use Rattle.hc_frames.specs.declared.limits.TheConstants.{MAX_ETHERCAT};
ghost use Rattle.hc_events.specs.Sendings.{sent_frame_size};
ghost use Rattle.hc_events.specs.Steps.{sent_text};
ghost use Rattle.hc_sendings.specs.Texts.{carried_bytes, frame_text_of};
ghost use Rattle.hc_images.specs.Packed.{sent_bytes};
ghost use Rattle.hc_core.specs.Filled.{CanBeFilled};

use crate::keeping::Core;
use hc_events::sending::Sending;
use hc_images::outputs::Outputs;
use hc_records::items::Items;
use hc_sendings::writing::{SentData, frame_text, write_frame};
use std::alloc::{AllocError, Global};

/// The output values, as they are sent.
#[derive(Drop)]
pub(crate) struct Values<'a> {
    pub(crate) outputs: &'a Outputs,
}

impl<'a> SentData for Values<'a> {
    ghost use Rattle.hc_images.specs.Packed.{sent_bytes};

    ghost bytes = { λ values. sent_bytes values.outputs.now };

    fn bytes_of(&self, task: u8, number: u8) -> &[u8] {
        self.outputs.bytes(task, number)
    }
}

/// Writes a frame into a slice of its exact size, with the data that outputs have of its datagrams.
#[inline(always)]
fn write_values(out: &mut [u8], frame: &Sending, outputs: &Outputs)
    requires serial { frame.now.serial < 2 ^ 40 }
    requires known { All (λ named. named.0 < TASKS) frame.now.datagrams }
    requires size { 2 + carried_bytes (sent_bytes outputs.now) frame.now.datagrams ≤ MAX_ETHERCAT }
    requires exact { length out.old ≡ frame_bytes (carried_bytes (sent_bytes outputs.now) frame.now.datagrams) }
    ensures { out.new ≡ frame_text_of (sent_bytes outputs.now) frame.now }
{
    write_frame(out, frame, &Values { outputs });
}

/// The text of a frame, with the data that outputs have of its datagrams.
fn values_text(alloc: Global, frame: &Sending, outputs: &Outputs) -> Result<Items<u8>, AllocError>
    requires serial { frame.now.serial < 2 ^ 40 }
    requires known { All (λ named. named.0 < TASKS) frame.now.datagrams }
    requires size { 2 + carried_bytes (sent_bytes outputs.now) frame.now.datagrams ≤ MAX_ETHERCAT }
    ensures { IfOk result (λ text. text ≡ frame_text_of (sent_bytes outputs.now) frame.now) }
{
    frame_text(alloc, frame, &Values { outputs })
}

impl Core {
    /// Writes a frame of datagrams of the present line into a slice of its exact size. Each datagram carries the values of its
    /// output variables, and zeros at every other bit. Frames of `propose` can be filled as long as they are the present
    /// proposal, and so can a present `preview`. It allocates nothing.
    #[inline(always)]
    pub fn fill(&self, frame: &Sending, out: &mut [u8])
        requires frame { CanBeFilled self.now.history frame.now }
        requires exact { length out.old ≡ sent_frame_size frame.now }
        ensures { out.new ≡ sent_text self.now.history frame.now }
    {
        let _ = frame.datagrams();
        write_values(out, frame, &self.outputs);
    }

    /// The text of a frame.
    fn text(&self, alloc: Global, frame: &Sending) -> Result<Items<u8>, AllocError>
        requires { CanBeFilled self.now.history frame.now }
        ensures { IfOk result (λ text. text ≡ sent_text self.now.history frame.now) }
    {
        let _ = frame.datagrams();
        values_text(alloc, frame, &self.outputs)
    }

    /// The texts of frames, in their order.
    pub(crate) fn texts(
        &self,
        alloc: Global,
        frames: &[Sending],
    ) -> Result<Items<Items<u8>>, AllocError>
        requires { All (CanBeFilled self.now.history) frames.now }
        ensures { IfOk result (λ texts. texts ≡ map (sent_text self.now.history) frames.now) }
    {
        let mut texts = Vec::with_capacity(alloc, frames.len())?;
        for frame in frames {
            texts.push(self.text(alloc, frame)?)?;
        }
        Ok(Items::of(texts))
    }
}

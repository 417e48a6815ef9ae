//! Values that a task posts, written to the places of their variables.
ghost use Rattle.std.specs.Prelude.{◌≡◌, ℕ, ◌+◌, ◌*◌, ◌^◌, ◌<◌, ◌≤◌, IfOk, None, OnOk, Some, length, nat_le};
ghost use Rattle.std.specs.List.{fold};
ghost use Rattle.hc_bits.specs.Bits.{AreBytes, bit_of};
ghost use Rattle.hc_records.specs.declared.records.Dir.TheVariants.{Out};
ghost use Rattle.hc_images.specs.Values.{table_image_bit};
ghost use Rattle.hc_conductor.specs.Views.{view_task, view_table};
ghost use Rattle.hc_conductor.specs.Posting.{BytesHoldOutputs, first_refused, set_bit, setting_refused, IsRefusedBy};
ghost use Rattle.hc_conductor.specs.Viewing.{viewed_place};

use crate::one_thread::refusals::PostRefusal;
use crate::view::TaskView;
use hc_bits::put_bits;
use hc_places::table::Place;
use hc_records::records::{Dir, VarId};
pub use hc_records::setting::Setting;

/// Returns the place of the variable with a number, if the view has one; 0 is no variable's number.
fn numbered_place(view: &TaskView, number: u32) -> Option<Place>
    ensures { result ≡ viewed_place (view_table view.now) number }
{
    view.place(VarId::new(number)?)
}

/// Returns whether a value needs more than `bits` bits, at most 64.
fn is_too_wide(value: u64, bits: u8) -> bool
    requires { bits ≤ 64 }
    ensures { result ≡ nat_le (2 ^ bits) value }
{
    bits < 64 && (1 << bits) <= value
}

/// Returns the place of a setting's variable. Fails with the first of these:
///
/// - `NoSuchVariable`: the line has no place for it.
/// - `IsInput`: it is an input.
/// - `OtherTask`: it lies in another task.
/// - `TooWide`: the value has too many bits.
fn place_for(view: &TaskView, task: u8, setting: &Setting) -> Result<Place, PostRefusal>
    ensures judged { IsRefusedBy (setting_refused (view_table view.now) task setting.now) result }
    ensures place { IfOk result (λ place. viewed_place (view_table view.now) setting.now.variable ≡ Some place) }
    ensures own { IfOk result (λ place. (place.dir ≡ Out) × (place.task ≡ task)) }
    ensures fits { IfOk result (λ place. setting.now.value < 2 ^ place.bits) }
{
    let Some(place) = numbered_place(view, setting.variable) else {
        return Err(PostRefusal::NoSuchVariable);
    };
    if place.dir == Dir::In {
        return Err(PostRefusal::IsInput);
    }
    if place.task != task {
        return Err(PostRefusal::OtherTask);
    }
    if is_too_wide(setting.value, place.bits) {
        return Err(PostRefusal::TooWide);
    }
    Ok(place)
}

/// Returns the bit of the task's image at which a place of the task begins.
fn first_bit(view: &TaskView, place: Place) -> usize
    requires { place.task ≡ view_task view.now }
    ensures { result ≡ table_image_bit (view_table view.now) place 0 }
{
    let offset = match view.datagram(place.datagram) {
        Some(datagram) => datagram.offset,
        None => 0,
    };
    8 * usize::from(offset) + usize::from(place.bit)
}

/// Writes a value to the bits of its variable. Fails as `place_for` does.
fn put_setting(
    view: &TaskView,
    task: u8,
    setting: &Setting,
    bytes: &mut [u8],
) -> Result<(), PostRefusal>
    requires task { task ≡ view_task view.now }
    requires holds { BytesHoldOutputs (view_table view.now) task (length bytes.old) }
    ensures judged { IsRefusedBy (setting_refused (view_table view.now) task setting.now) result }
    ensures bits { OnOk result ((k : ℕ) → bit_of bytes.new k ≡ set_bit (view_table view.now) k (bit_of bytes.old k) setting.now) }
    ensures all_bytes { OnOk result (AreBytes bytes.new) }
{
    let place = place_for(view, task, setting)?;
    put_bits(
        bytes,
        first_bit(view, place),
        usize::from(place.bits),
        setting.value,
    );
    Ok(())
}

/// Writes values to the bits of their variables, one after another. The first value that is refused ends it, and it fails as
/// `place_for` does.
pub(crate) fn put_settings(
    view: &TaskView,
    task: u8,
    settings: &[Setting],
    bytes: &mut [u8],
) -> Result<(), PostRefusal>
    requires task { task ≡ view_task view.now }
    requires holds { BytesHoldOutputs (view_table view.now) task (length bytes.old) }
    ensures judged { IsRefusedBy (first_refused (view_table view.now) task settings.now) result }
    ensures bits { OnOk result ((k : ℕ) → bit_of bytes.new k ≡ fold (set_bit (view_table view.now) k) (bit_of bytes.old k) settings.now) }
    ensures size { length bytes.new ≡ length bytes.old }
    ensures all_bytes { OnOk result (AreBytes bytes.new) }
{
    for setting in settings {
        if let Err(refusal) = put_setting(view, task, setting, bytes) {
            return Err(refusal);
        }
    }
    Ok(())
}

//! Views in place: the newest image of a seat, lent by its address.
ghost use Rattle.std.specs.Prelude.{◌≡◌, ◌≢◌, IfSome, IsSome, None, ℕ, is_some, length, take};
ghost use Rattle.std.specs.Vec.{vec_ptr};
ghost use Rattle.hc_mail.specs.Contents.{counted};
ghost use Rattle.hc_c.specs.Handles.{no_line_number};
ghost use Rattle.hc_c.specs.Lists.{put_first};
ghost use Rattle.hc_c.specs.SeatRoom.{image_room};
ghost use Rattle.hc_c.specs.Seats.{LendsNewest, LooksOn, serials_answered, view_of};

use crate::numbers::DONE;
use crate::seat::handle::SeatHandle;
use crate::seat::viewing::{SeatView, give_serials, view_of};
use hc_mail::viewed::ViewedImage;

/// Writes the address of an image's data, its serials and the rest of it, with its number.
fn lend_image(
    showing: u64,
    image: &ViewedImage,
    bytes: &mut *const u8,
    serials: &mut [u64],
    view: &mut SeatView,
)
    requires { image.now.image.room ≡ image_room }
    ensures address { (bytes.new ≡ vec_ptr image.now.memory) × (take (length image.now.image.bytes) image.now.memory.items ≡ image.now.image.bytes) }
    ensures serials { serials.new ≡ put_first (serials_answered image.now.image.serials) serials.old }
    ensures view { (shown : ℕ) → showing ≡ counted shown → view.new ≡ view_of shown image.now.image }
{
    *bytes = image.as_ptr();
    let has = give_serials(image.serials(), serials);
    *view = view_of(showing, has, image);
}

/// Takes the newest image that the seat was shown, as `zangjulf_seat_view` does, and copies none of its data: `bytes` is their
/// address, and `view` says how many they are. Until the next view of the seat, or until it is closed, they stay at that
/// address, and unchanged. Returns `DONE`.
///
/// The data of each datagram lie at its offset, and zeros for one without data. `serials` begins with a serial for each
/// datagram, in their order and as many as fit: that of the frame which its data answer, 0 if it has none. `view` has the rest.
///
/// Fails with `CLOSED` if the seat is closed, and with `MISUSED` if its handle was never zeroed. Then `bytes`, `serials` and
/// `view` are unchanged.
#[unsafe(no_mangle)]
pub extern "C" fn zangjulf_seat_view_in_place(
    seat: &mut SeatHandle,
    bytes: &mut *const u8,
    serials: &mut [u64],
    view: &mut SeatView,
) -> u8
    ensures looked { IfSome seat.old.holding.value (λ old. IfSome seat.new.holding.value (LooksOn old)) }
    ensures answer { IsSome seat.old.holding.value → result ≡ DONE }
    ensures image { result ≡ DONE → IfSome seat.new.holding.value (λ new. LendsNewest new view.new bytes.new serials.old serials.new) }
    ensures unwritten { result ≢ DONE → (bytes.new ≡ bytes.old) × (serials.new ≡ serials.old) × (view.new ≡ view.old) }
    ensures held { (seat.new.mark ≡ seat.old.mark) × (is_some seat.new.holding.value ≡ is_some seat.old.holding.value) }
    ensures closed { seat.old.holding.value ≡ None → result ≡ no_line_number seat.old.mark }
{
    if !seat.is_open() {
        return seat.refusal();
    }
    let end = seat.holding.end_mut();
    end.images.look();
    lend_image(
        end.images.number(),
        end.images.content(),
        bytes,
        serials,
        view,
    );
    DONE
}

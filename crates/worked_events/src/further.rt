//! Further register blocks of an axis are sent while earlier ones are under way.
use crate::asked::Asked::{Comes, Forget, Further, Send, Write, Writes};
use crate::asked::{Back, Row, Text, Wanted};
use crate::driven::Driven;
use crate::lines::{AXIS, opened_wide};
use crate::several::FOUR;
use crate::stages::Stage::Rows;
use crate::stages::{Case, first_wrong_case};
use hc_events::answer::Answer;
use hc_events::answer::Outcome::{Done, Missed};
use hc_events::event::Event;
use hc_events::faults::CoreFault;
use hc_frames::Command::Fpwr;
use std::alloc::{AllocError, Global};
use std::test::Fail;

/// The axis' first block alone, with the serial 0.
const FIRST: Text = (
    0,
    0x14,
    b"\x05\0\xe9\x03\x10\x08\x08\0\0\0\0\x11\x01\0\x64\0\x01\0",
    26,
);

/// The three others in one frame with the serial 1.
const THREE: Text = (
    1,
    0x4c,
    b"\x05\x01\xe9\x03\0\x06\x10\x80\0\0\0\0\0\x01\x01\0\0\x01\0\x11\0\x02\x01\0\0\0\0\0\
      \x05\x01\xe9\x03\x18\x08\x08\x80\0\0\x80\x11\x02\0\x20\0\x01\0\0\0\
      \x05\x01\xe9\x03\x10\x06\x10\0\0\0\x01\0\0\x01\x02\0\0\x03\x80\x11\0\x01\x01\0\0\0",
    2,
);

/// The first block as it comes back.
const FIRST_BACK: &[Back] = &[(Fpwr, 0x0810_03e9, &[0; 8], 1)];

/// The three others as they come back.
const THREE_BACK: &[Back] = &[
    (Fpwr, 0x0600_03e9, &[0; 16], 1),
    (Fpwr, 0x0818_03e9, &[0; 8], 1),
    (Fpwr, 0x0610_03e9, &[0; 16], 1),
];

/// All four as they come back.
const FOUR_BACK: &[Back] = &[
    (Fpwr, 0x0810_03e9, &[0; 8], 1),
    (Fpwr, 0x0600_03e9, &[0; 16], 1),
    (Fpwr, 0x0818_03e9, &[0; 8], 1),
    (Fpwr, 0x0610_03e9, &[0; 16], 1),
];

/// Two frames are under way together, and no further one can be sent.
const TWO_FRAMES: &[Row] = &[
    (Write, Wanted::WriteSent(FIRST)),
    (Further, Wanted::WritesSent(THREE)),
    (Further, Wanted::Refused(CoreFault::UnderWay)),
    (Send(&[0]), Wanted::Refused(CoreFault::Unprogrammed(4))),
];

/// The two frames are answered in the order in which they were sent, each once.
const IN_ORDER: &[Row] = &[
    (Comes(0, FIRST_BACK), Wanted::WriteDone),
    (Comes(1, THREE_BACK), Wanted::Written(&[Done, Done, Done])),
    (Comes(0, FIRST_BACK), Wanted::Stale),
    (Comes(1, THREE_BACK), Wanted::Stale),
    (Further, Wanted::Refused(CoreFault::NothingOwed)),
];

/// The later of the two frames is answered first, and the earlier one counts all the same.
const IN_REVERSE: &[Row] = &[
    (Comes(1, THREE_BACK), Wanted::Written(&[Done, Done, Done])),
    (Further, Wanted::Refused(CoreFault::UnderWay)),
    (Comes(0, FIRST_BACK), Wanted::WriteDone),
    (Further, Wanted::Refused(CoreFault::NothingOwed)),
];

/// The first frame is lost, and its block is sent again with the serial 2. The late answer to the lost frame confirms
/// nothing.
const ONE_LOST: &[Row] = &[
    (Comes(1, THREE_BACK), Wanted::Written(&[Done, Done, Done])),
    (
        Writes,
        Wanted::WriteSent((
            2,
            0x14,
            b"\x05\x02\xe9\x03\x10\x08\x08\0\0\0\0\x11\x01\0\x64\0\x01\0",
            26,
        )),
    ),
    (Comes(0, FIRST_BACK), Wanted::Stale),
    (Send(&[0]), Wanted::Refused(CoreFault::Unprogrammed(1))),
    (Comes(2, FIRST_BACK), Wanted::WriteDone),
    (Further, Wanted::Refused(CoreFault::NothingOwed)),
];

/// A block that came back with the counter 0 is under way no longer: it is sent again beside the first frame.
const ONE_MISSED: &[Row] = &[
    (
        Comes(
            1,
            &[
                (Fpwr, 0x0600_03e9, &[0; 16], 1),
                (Fpwr, 0x0818_03e9, &[0; 8], 0),
                (Fpwr, 0x0610_03e9, &[0; 16], 1),
            ],
        ),
        Wanted::Written(&[Done, Missed, Done]),
    ),
    (
        Further,
        Wanted::WriteSent((
            2,
            0x14,
            b"\x05\x02\xe9\x03\x18\x08\x08\0\0\0\x80\x11\x02\0\x20\0\x01\0",
            26,
        )),
    ),
    (Comes(0, FIRST_BACK), Wanted::WriteDone),
    (
        Comes(2, &[(Fpwr, 0x0818_03e9, &[0; 8], 1)]),
        Wanted::WriteDone,
    ),
    (Further, Wanted::Refused(CoreFault::NothingOwed)),
];

/// If nothing is under way, a further frame carries the first owed blocks.
const AT_FIRST: &[Row] = &[
    (Further, Wanted::WritesSent(FOUR)),
    (Further, Wanted::Refused(CoreFault::UnderWay)),
    (
        Comes(0, FOUR_BACK),
        Wanted::Written(&[Done, Done, Done, Done]),
    ),
    (Further, Wanted::Refused(CoreFault::NothingOwed)),
];

/// A forgotten slave has no block under way: all are sent again, and the frame from before confirms nothing.
const FORGOTTEN: &[Row] = &[
    (Further, Wanted::WritesSent(FOUR)),
    (Forget(1001), Wanted::Forgotten),
    (
        Further,
        Wanted::WritesSent((
            1,
            0x60,
            b"\x05\x01\xe9\x03\x10\x08\x08\x80\0\0\0\x11\x01\0\x64\0\x01\0\0\0\
              \x05\x01\xe9\x03\0\x06\x10\x80\0\0\0\0\0\x01\x01\0\0\x01\0\x11\0\x02\x01\0\0\0\0\0\
              \x05\x01\xe9\x03\x18\x08\x08\x80\0\0\x80\x11\x02\0\x20\0\x01\0\0\0\
              \x05\x01\xe9\x03\x10\x06\x10\0\0\0\x01\0\0\x01\x02\0\0\x03\x80\x11\0\x01\x01\0\0\0",
            2,
        )),
    ),
    (Comes(0, FOUR_BACK), Wanted::Stale),
    (
        Comes(1, FOUR_BACK),
        Wanted::Written(&[Done, Done, Done, Done]),
    ),
];

/// The lines of these rows, each from its opening on.
const LINES: &[Case] = &[
    (AXIS, &[Rows(TWO_FRAMES), Rows(IN_ORDER)]),
    (AXIS, &[Rows(TWO_FRAMES), Rows(IN_REVERSE)]),
    (AXIS, &[Rows(TWO_FRAMES), Rows(ONE_LOST)]),
    (AXIS, &[Rows(TWO_FRAMES), Rows(ONE_MISSED)]),
    (AXIS, &[Rows(AT_FIRST)]),
    (AXIS, &[Rows(FORGOTTEN)]),
];

/// Further blocks are sent beside those that are under way, and each answer counts for its own blocks.
#[test]
fn further_blocks_are_sent_beside_others(rt: HostRuntime) -> Result<(), Fail> {
    assert_eq!(rt; first_wrong_case(rt.alloc(), LINES)?, None);
    Ok(())
}

/// The number of slaves, each with an area of one byte and two register blocks: more blocks than four frames hold.
const SLAVES: usize = 150;

/// The blocks of these slaves. 62 of 8 and 16 bytes by turns share a frame, so they take five.
const BLOCKS: usize = 300;

/// Sets the working counter of each register write in a frame to 1. A datagram's length is in its bytes 6 and 7, whose
/// highest bit says that another follows; its data begin with its byte 10, and its counter is after them.
fn answer_each(frame: &mut [u8]) {
    let mut at = 16_usize;
    for _ in 0..74 {
        let Some([length, flags]) = frame.get(at.saturating_add(6)..at.saturating_add(8)) else {
            return;
        };
        let is_last = *flags < 0x80;
        let counter = at.saturating_add(10).saturating_add(usize::from(*length));
        if let Some(byte) = frame.get_mut(counter) {
            *byte = 1;
        }
        if is_last {
            return;
        }
        at = counter.saturating_add(2);
    }
}

/// Sends further frames until none is left, eight at most.
fn send_all(driven: &mut Driven, alloc: Global) -> Result<Vec<Vec<u8>>, AllocError> {
    let mut frames = Vec::with_capacity(alloc, 8)?;
    for _ in 0..8 {
        let Answer::WritesSent(text) = driven.put(alloc, Event::SendFurther)? else {
            return Ok(frames);
        };
        frames.push(text.into_vec())?;
    }
    Ok(frames)
}

/// Answers the frames, the last one first, and returns the number of confirmed blocks.
fn answer_in_reverse(
    driven: &mut Driven,
    alloc: Global,
    mut frames: Vec<Vec<u8>>,
) -> Result<usize, AllocError> {
    let mut confirmed = 0_usize;
    for _ in 0..frames.len() {
        let Some(mut frame) = frames.pop() else {
            return Ok(confirmed);
        };
        answer_each(frame.as_mut_slice());
        if let Answer::Written(outcomes) = driven.put(alloc, Event::Arrive(frame.as_slice()))? {
            let done = outcomes.as_slice().iter().all(|outcome| *outcome == Done);
            if done {
                confirmed = confirmed.saturating_add(outcomes.as_slice().len());
            }
        }
    }
    Ok(confirmed)
}

/// Five frames are under way at once, more than the opening made room for, and are answered in the opposite order.
#[test]
fn five_frames_are_under_way(rt: HostRuntime) -> Result<(), Fail> {
    let alloc = rt.alloc();
    let mut driven = opened_wide(alloc, &[(0, 1); SLAVES])?;
    let frames = send_all(&mut driven, alloc)?;
    assert_eq!(rt; frames.len(), 5);
    let refused = driven.put(alloc, Event::SendFurther)?;
    assert!(rt; matches!(refused, Answer::Refused(CoreFault::UnderWay)));
    assert!(rt; driven.core.is_under_way(1, 0) && driven.core.is_under_way(150, 1));
    assert_eq!(rt; answer_in_reverse(&mut driven, alloc, frames)?, BLOCKS);
    assert!(rt; !driven.core.is_under_way(150, 1));
    let nothing = driven.put(alloc, Event::SendFurther)?;
    assert!(rt; matches!(nothing, Answer::Refused(CoreFault::NothingOwed)));
    Ok(())
}

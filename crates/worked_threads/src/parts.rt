//! Parts that are cut, handed out and worked on.
ghost use Rattle.std.specs.Prelude.{◌≡◌, ◌+◌, ◌++◌, ◌%◌, ◌<◌, ◌≤◌, length, sum, replicate, drop, slice_index, slice_index_or, EachIndex, []};
ghost use Rattle.std.specs.List.{concat};
ghost use Rattle.hc_lend.specs.Work.{worked_parts};

use crate::gates::Open;
use hc_lend::{PartWork, Parts, each_at_once};
use std::thread::Threads;

/// Fills a part with its number, counted from 1.
#[derive(Drop)]
pub struct Stamp;

impl PartWork for Stamp {
    ghost leaves = { λ stamp part bytes. replicate (length bytes) (part % 255 + 1) };

    fn work(&self, part: usize, bytes: &mut [u8]) {
        bytes.fill((part % 255) as u8 + 1);
    }
}

/// Copies to a part the word with its number, if there is one and it fits.
#[derive(Drop)]
struct Copies<'a> {
    words: &'a [[u8; 2]],
}

impl PartWork for Copies<'_> {
    ghost can_work = { λ copies part bytes. (part < length copies.words.now) × (length bytes ≡ 2) };

    ghost leaves = { λ copies part bytes. slice_index_or copies.words.now part [] };

    fn work(&self, part: usize, bytes: &mut [u8]) {
        bytes.copy_from_slice(&self.words[part]);
    }
}

/// Stamps each part of the caller's own slice by `each_at_once`. The contract gives the bytes that the slice then has.
fn stamp_each<R: Threads + Sync>(rt: &R, bytes: &mut [u8], lengths: &[u32])
    requires { sum lengths.now ≡ length bytes.old }
    ensures { bytes.new ≡ concat (worked_parts (λ part b. replicate (length b) (part % 255 + 1)) 0 lengths.now bytes.old) }
{
    each_at_once(rt, Parts::of(bytes, lengths), &Stamp, &Open);
}

/// Stamps parts of these lengths. True if their bytes become these.
fn is_stamped<R: Threads + Sync>(rt: &R, lengths: &[u32], wanted: &[u8]) -> bool
    requires all { sum lengths.now ≡ length wanted.now }
    requires few { length wanted.now ≤ 12 }
{
    let mut twelve = [9; 12];
    let bytes = &mut twelve[..wanted.len()];
    stamp_each(rt, bytes, lengths);
    &*bytes == wanted
}

/// Each part of a slice is worked on once, also an empty one. Without parts nothing is worked on.
#[test]
fn each_part_is_worked_on(rt: HostRuntime) {
    let are_stamped = [
        is_stamped(&rt, &[], &[]),
        is_stamped(&rt, &[0, 0], &[]),
        is_stamped(&rt, &[4], &[1, 1, 1, 1]),
        is_stamped(&rt, &[0, 3, 0, 1], &[2, 2, 2, 4]),
        is_stamped(
            &rt,
            &[1, 2, 1, 0, 3, 1, 2, 2],
            &[1, 2, 2, 3, 5, 5, 5, 6, 7, 7, 8, 8],
        ),
    ];
    assert_eq!(rt; are_stamped, [true; 5]);
}

/// Takes parts apart, cuts the first one itself and stamps it. The contract gives the bytes that the caller's slice then has.
fn stamp_first(bytes: &mut [u8], lengths: &[u32])
    requires all { sum lengths.now ≡ length bytes.old }
    requires one { 0 < length lengths.now }
    ensures { let n = slice_index lengths.now 0 in
        bytes.new ≡ replicate n 1 ++ drop n bytes.old }
{
    let Parts { bytes, lengths } = Parts::of(bytes, lengths);
    let (part, _rest) = bytes.split_at_mut(lengths[0] as usize);
    Stamp.work(0, part);
}

/// Copies a word to each part. The work is not for any part: the caller shows that each has a word, and a length of 2.
fn copy_each<R: Threads + Sync>(rt: &R, bytes: &mut [u8], lengths: &[u32], words: &[[u8; 2]])
    requires all { sum lengths.now ≡ length bytes.old }
    requires fits { EachIndex lengths.now (λ k. slice_index lengths.now k ≡ 2) }
    requires words { length lengths.now ≤ length words.now }
    ensures { bytes.new
        ≡ concat (worked_parts (λ part b. slice_index_or words.now part []) 0 lengths.now bytes.old) }
{
    each_at_once(rt, Parts::of(bytes, lengths), &Copies { words }, &Open);
}

/// Parts are handed out in order with their own lengths, one of them empty, and the bytes are what was left in each. No part is
/// left after them.
#[test]
fn parts_are_cut_and_handed_out(rt: HostRuntime) {
    let mut cut = [9; 5];
    stamp_first(&mut cut, &[2, 3]);
    let mut copied = [0; 6];
    copy_each(&rt, &mut copied, &[2, 2, 2], &[[7, 8], [1, 2], [3, 4]]);
    let mut bytes = [0; 5];
    let parts = Parts::of(&mut bytes, &[2, 0, 3]);
    let is_empty_first = parts.is_empty();
    let (first, parts) = parts.take();
    let (second, parts) = parts.take();
    let (third, parts) = parts.take();
    let is_empty_last = parts.is_empty();
    first.fill(1);
    second.fill(2);
    third.fill(3);
    assert_eq!(rt;
        (is_empty_first, is_empty_last, bytes),
        (false, true, [1, 1, 3, 3, 3])
    );
    assert_eq!(rt; (cut, copied), ([1, 1, 9, 9, 9], [7, 8, 1, 2, 3, 4]));
}

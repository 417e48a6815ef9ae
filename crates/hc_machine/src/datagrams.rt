//! A frame's datagrams, served in their places one after another.

ghost use Rattle.std.specs.Prelude.{◌≡◌, ◌+◌, ◌<◌, ◌≤◌, drop, length, take, true};
ghost use Rattle.std.specs.List.{list_all};
ghost use Rattle.hc_frames.specs.Arrived.{datagram_carried, data_size, datagram_tails, is_whole};
ghost use Rattle.hc_machine.specs.Commands.{memory_after_datagram, served};
ghost use Rattle.hc_machine.specs.Rewriting.{ServesTexts, rewritten};

use crate::commands::{address_after, serve};
use crate::limits::MEMORY_BYTES;
use crate::memory::put_part;
use hc_frames::Command;
use hc_frames::limits::{BESIDE_DATA_BYTES, DATAGRAM_HEAD_BYTES, MAX_DATA};
use hc_frames::reading::{long_at, word_at};

/// The first byte of a datagram's address (ETG.1000.4, datagram structure).
const ADDRESS_AT: usize = 2;

/// The first byte of the field with a datagram's length.
const LENGTH_AT: usize = 6;

/// A length has eleven bits, a datagram's and the EtherCAT header's.
pub(crate) const LENGTHS: u16 = 2_048;

/// Serves one datagram, which fills the bytes: its address, data and working counter are changed in their places.
fn serve_datagram(memory: &mut [u8], spare: &mut [u8], datagram: &mut [u8])
    requires memory { length memory.old ≡ MEMORY_BYTES }
    requires spare { length spare.old ≡ MAX_DATA }
    requires exact { length datagram.old ≡ 12 + data_size datagram.old }
    requires short { data_size datagram.old ≤ MAX_DATA }
    ensures datagram { datagram.new ≡ rewritten datagram.old (served memory.old (datagram_carried datagram.old)) }
    ensures memory { memory.new ≡ memory_after_datagram memory.old (datagram_carried datagram.old) }
{
    let end = datagram.len() - 2;
    let command = Command::of(datagram[0]).unwrap_or(Command::Lrw);
    let address = long_at(datagram, ADDRESS_AT);
    let counter = word_at(datagram, end);
    let data = &mut datagram[DATAGRAM_HEAD_BYTES..end];
    let count = serve(memory, spare, command, address, data);
    put_part(
        datagram,
        ADDRESS_AT,
        &address_after(command, address).to_le_bytes(),
    );
    put_part(datagram, end, &counter.wrapping_add(count).to_le_bytes());
}

/// The bytes of the first datagram.
fn first_size(region: &[u8]) -> usize
    requires some { 0 < length region.now }
    requires whole { list_all is_whole (datagram_tails region.now) ≡ true }
    ensures size { result ≡ 12 + data_size region.now }
    ensures within { result ≤ length region.now }
    ensures short { data_size region.now ≤ MAX_DATA }
    ensures first { data_size (take result region.now) ≡ data_size region.now }
    ensures rest { list_all is_whole (datagram_tails (drop result region.now)) ≡ true }
{
    BESIDE_DATA_BYTES + usize::from(word_at(region, LENGTH_AT) % LENGTHS)
}

/// Serves the datagrams that fill the bytes, one after another.
pub(crate) fn serve_datagrams(memory: &mut [u8], spare: &mut [u8], region: &mut [u8])
    requires memory { length memory.old ≡ MEMORY_BYTES }
    requires spare { length spare.old ≡ MAX_DATA }
    requires whole { list_all is_whole (datagram_tails region.old) ≡ true }
    ensures { ServesTexts memory.old memory.new region.old region.new }
{
    if region.is_empty() {
        return;
    }
    let size = first_size(region);
    let (first, rest) = region.split_at_mut(size);
    serve_datagram(memory, spare, first);
    serve_datagrams(memory, spare, rest);
}

//! Runs of bits in bytes.
use hc_bits::{get_bits, put_bits};

/// A run goes over the edge of a byte.
#[test]
fn bits_are_put_and_got(rt: HostRuntime) {
    let mut bytes = [0; 2];
    put_bits(&mut bytes, 6, 4, 0b1011);
    assert_eq!(rt; bytes, [0xc0, 0x02]);
    assert_eq!(rt; get_bits(&bytes, 6, 4), 0b1011);
}

//! Parts of a slice.
use hc_lend::Parts;

/// Two parts are lent at the same time.
#[test]
fn parts_are_lent(rt: HostRuntime) {
    let mut bytes = [0; 6];
    let (first, rest) = Parts::of(&mut bytes, &[2, 4]).take();
    let (second, rest) = rest.take();
    first.fill(1);
    second.fill(2);
    assert!(rt; rest.is_empty());
    assert_eq!(rt; bytes, [1, 1, 2, 2, 2, 2]);
}

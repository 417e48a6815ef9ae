//! Lists whose datagrams are known.
ghost use Rattle.std.specs.Prelude.{All, IfOk};
ghost use Rattle.hc_records.specs.Laws.{IsPackable};

use crate::pieces::trees::{input, out};
use hc_cuts::fold::{TooManyDatagrams, fold_cuts};
use hc_records::keys::Key;
use std::alloc::{AllocError, Global};
use std::test::Fail;

/// True if the datagrams of a list begin at these keys.
fn begin_at(list: &[(Key, u16)], keys: &[Key]) -> bool
    requires { All IsPackable list.now }
{
    match fold_cuts(list) {
        Ok(starts) => starts.as_slice() == keys,
        Err(_) => false,
    }
}

/// Returns `areas` areas of 1,400 bytes, each of which fills a datagram.
fn filling(alloc: Global, areas: u16) -> Result<Vec<(Key, u16)>, AllocError>
    ensures { IfOk result (λ list. All IsPackable list.items) }
{
    let mut list = Vec::new(alloc);
    for rank in 0..areas {
        list.push((out(rank), 8 * 1400))?;
    }
    Ok(list)
}

/// The number of datagrams that `areas` areas of 1,400 bytes need. None if that is too many.
fn needed(alloc: Global, areas: u16) -> Result<Option<usize>, AllocError> {
    let list = filling(alloc, areas)?;
    Ok(match fold_cuts(&list) {
        Ok(keys) => Some(keys.len()),
        Err(TooManyDatagrams) => None,
    })
}

/// A datagram begins at the first area that no longer fits. Sixteen datagrams are accepted, and a seventeenth is refused.
#[test]
fn datagrams_begin_where_areas_no_longer_fit(rt: HostRuntime) -> Result<(), Fail> {
    let [a, b, c, i] = [out(1), out(2), out(3), input(1)];
    let begin = [
        begin_at(&[(a, 8 * 1485), (b, 8), (c, 1)], &[a, c]),
        begin_at(&[(a, 8 * 1485), (b, 7), (c, 1)], &[a]),
        begin_at(&[(a, 8000), (b, 5600), (c, 5600)], &[a, b]),
        // the first free bit is 11,881, and an input begins a byte
        begin_at(&[(a, 11_881), (b, 7)], &[a]),
        begin_at(&[(a, 11_881), (i, 7)], &[a, i]),
        begin_at(&[], &[]),
    ];
    let needed = (needed(rt.alloc(), 16)?, needed(rt.alloc(), 17)?);
    assert_eq!(rt; (begin, needed), ([true; 6], (Some(16), None)));
    Ok(())
}

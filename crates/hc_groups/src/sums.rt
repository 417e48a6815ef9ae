//! Prefix sums of lists, in which the element that a number falls into is found by bisection.
ghost use Rattle.std.specs.Prelude.{◌≡◌, ◌+◌, ◌-◌, ◌<◌, ◌≤◌, if◌then◌else◌, All, IfOk, IfSome, [], MatchOption, length, map, slice_index, sum_by, vec_capacity, vec_len};
ghost use Rattle.std.specs.List.Sorted.{IsNonDecreasing, IsPartitionPoint};
ghost use Rattle.hc_records.specs.Line.{IsCounted};
ghost use Rattle.hc_groups.specs.Index.{AreRisingSums, IsSumPlace, block_sum, block_sums, slave_block_count, declared_count, own_sum, present_count, sums_from};
ghost use Rattle.hc_groups.specs.inner.Turned.{recounted};

use hc_records::records::{Declared, Slave};
use std::alloc::{AllocError, Global};

/// The element into which a number falls.
#[derive(Drop)]
pub(crate) struct SumPlace {
    /// The number of the element, from 0.
    pub index: usize,
    /// The offset from the element's front.
    pub offset: u32,
}

/// Returns a number if a condition holds, and else 0, without a branch.
fn count_if(holds: bool, count: usize) -> usize
    ensures { result ≡ (if holds then count else 0) }
{
    count * usize::from(holds)
}

/// Returns how many sums are no greater than a number. Each step halves the rest, without a branch on what was read.
fn count_begun(sums: &[u32], n: u32) -> usize
    requires { IsNonDecreasing sums.now }
    ensures bound { result ≤ length sums.now }
    ensures parted { IsPartitionPoint (λ sum. sum ≤ n) (λ sum. n < sum) sums.now result }
{
    let mut begun = 0;
    let mut left = sums.len();
    while left > 0 {
        let half = left - left / 2;
        begun += count_if(sums[begun + half - 1] <= n, half);
        left /= 2;
    }
    begun
}

/// Returns the element into which a number falls, or `None` if it is not below the last sum.
pub(crate) fn find_sum_place(sums: &[u32], n: u32) -> Option<SumPlace>
    requires { AreRisingSums sums.now }
    ensures { MatchOption result (All (λ sum. sum ≤ n) sums.now) (λ sum_place. IsSumPlace sums.now n sum_place.index sum_place.offset) }
{
    let begun = count_begun(sums, n);
    if begun == sums.len() {
        return None;
    }
    let index = begun - 1;
    let offset = n - sums[index];
    Some(SumPlace { index, offset })
}

/// Returns the element into which a number falls, if it is the one that it would be if all elements had one weight; else
/// `None`. Most slaves of a line have as many blocks as the others, so most numbers of blocks do.
fn find_by_share(sums: &[u32], n: u32) -> Option<SumPlace>
    ensures { IfSome result (λ sum_place. IsSumPlace sums.now n sum_place.index sum_place.offset) }
{
    let total = *sums.last()?;
    if total <= n {
        return None;
    }
    let last = sums.len().saturating_sub(1);
    let index = (u64::from(n).wrapping_mul(last as u64) / u64::from(total)) as usize;
    if index >= last || n < sums[index] || sums[index + 1] <= n {
        return None;
    }
    Some(SumPlace {
        index,
        offset: n - sums[index],
    })
}

/// Returns the element into which a number falls, among elements that mostly have one weight, or `None` if it is not below the
/// last sum.
pub(crate) fn find_near_share(sums: &[u32], n: u32) -> Option<SumPlace>
    requires { AreRisingSums sums.now }
    ensures { MatchOption result (All (λ sum. sum ≤ n) sums.now) (λ sum_place. IsSumPlace sums.now n sum_place.index sum_place.offset) }
{
    match find_by_share(sums, n) {
        Some(sum_place) => Some(sum_place),
        None => find_sum_place(sums, n),
    }
}

/// Returns the number at an offset from the front of the element with an index.
pub(crate) fn number_at(sums: &[u32], index: usize, offset: u32) -> u16
    requires inside { index < length sums.now }
    requires low { slice_index sums.now index + offset < 65535 }
    ensures value { result ≡ slice_index sums.now index + offset }
    ensures low { result < 65535 }
{
    (sums[index] + offset) as u16
}

/// Returns the sums of the blocks of slaves.
pub(crate) fn slave_sums(alloc: Global, slaves: &[Slave]) -> Result<Vec<u32>, AllocError>
    requires { block_sum slaves.now < 4294967296 }
    ensures { IfOk result (λ sums. sums.items ≡ sums_from slave_block_count 0 slaves.now) }
{
    let mut sums = Vec::with_capacity(alloc, slaves.len() + 1)?;
    let mut blocks = 0;
    for slave in slaves {
        sums.push(blocks)?;
        blocks += 2 * slave.areas.len() as u32;
    }
    sums.push(blocks)?;
    Ok(sums)
}

/// Returns the sums of the blocks of each declared group's slaves.
pub(crate) fn group_fronts(alloc: Global, groups: &[Declared]) -> Result<Vec<Vec<u32>>, AllocError>
    requires { All (λ declared. block_sum declared.group.slaves < 4294967296) groups.now }
    ensures { IfOk result (λ fronts. map (λ sums. sums.items) fronts.items ≡ map block_sums groups.now) }
{
    let mut fronts = Vec::with_capacity(alloc, groups.len())?;
    for declared in groups {
        fronts.push(slave_sums(alloc, declared.group.slaves.as_slice())?)?;
    }
    Ok(fronts)
}

/// Returns the sums of the slaves that groups declare.
pub(crate) fn declared_sums(alloc: Global, groups: &[Declared]) -> Result<Vec<u32>, AllocError>
    requires { IsCounted groups.now }
    ensures { IfOk result (λ ranks. ranks.items ≡ sums_from declared_count 0 groups.now) }
{
    let mut ranks = Vec::with_capacity(alloc, groups.len() + 1)?;
    let mut declared_slaves = 0;
    for declared in groups {
        ranks.push(declared_slaves)?;
        declared_slaves += declared.group.slaves.len() as u32;
    }
    ranks.push(declared_slaves)?;
    Ok(ranks)
}

/// Returns how many slaves and how many blocks a declared group has in the line, which depends on its presence, from the sums
/// of its slaves' blocks.
pub(crate) fn line_counts(declared: &Declared, present: bool, sums: &[u32]) -> (u32, u32)
    requires sums { sums.now ≡ block_sums declared.now }
    requires few { declared_count declared.now < 65535 }
    ensures slaves { result.0 ≡ length (if present then declared.now.group.slaves else []) }
    ensures blocks { result.1 ≡ block_sum (if present then declared.now.group.slaves else []) }
{
    if !present {
        return (0, 0);
    }
    let count = declared.group.slaves.len();
    (count as u32, sums[count])
}

/// Appends the sums of the groups' slaves in the line and of their blocks to empty lists, whose capacity must suffice.
pub(crate) fn sum_line(
    slaves: &mut Vec<u32>,
    blocks: &mut Vec<u32>,
    fronts: &[Vec<u32>],
    groups: &[Declared],
)
    requires empty { (vec_len slaves.old ≡ 0) × (vec_len blocks.old ≡ 0) }
    requires room { (length groups.now < vec_capacity slaves.old) × (length groups.now < vec_capacity blocks.old) }
    requires fronts { map (λ sums. sums.items) fronts.now ≡ map block_sums groups.now }
    requires counted { IsCounted groups.now }
    requires few { sum_by own_sum groups.now < 4294967296 }
    ensures slaves { slaves.new.items ≡ sums_from present_count 0 groups.now }
    ensures blocks { blocks.new.items ≡ sums_from own_sum 0 groups.now }
    ensures room { (vec_capacity slaves.new ≡ vec_capacity slaves.old) × (vec_capacity blocks.new ≡ vec_capacity blocks.old) }
{
    let mut line = 0;
    let mut line_blocks = 0;
    let mut group = 0;
    for declared in groups {
        slaves.push_reserved(line);
        blocks.push_reserved(line_blocks);
        let sums = fronts[group].as_slice();
        let (count, own) = line_counts(declared, declared.present, sums);
        line += count;
        line_blocks += own;
        group += 1;
    }
    slaves.push_reserved(line);
    blocks.push_reserved(line_blocks);
}

/// Adds one number to each of these sums, and subtracts another.
fn shift(sums: &mut [u32], more: u32, less: u32)
    requires { All (λ sum. (less ≤ sum) × (sum + more < 4294967296)) sums.old }
    ensures { sums.new ≡ map (λ sum. sum + more - less) sums.old }
{
    for sum in sums.iter_mut() {
        *sum = *sum + more - less;
    }
}

/// Changes the weight of the element with an index: the sums after it follow.
pub(crate) fn recount(sums: &mut [u32], index: usize, count: u32)
    requires inside { index + 1 < length sums.old }
    requires rising { IsNonDecreasing sums.old }
    requires low { All (λ sum. sum + count < 4294967296) sums.old }
    ensures { sums.new ≡ recounted index count sums.old }
{
    let own = sums[index + 1] - sums[index];
    shift(&mut sums[index + 1..], count, own);
}

//! The banks of a fused media are wrapped and unwrapped one by one.
ghost use Rattle.std.specs.Prelude.{◌≡◌, ◌≤◌, length, vec_capacity, [], slice_index};
ghost use Rattle.disk_fuse.specs.FuseMedia.{is_at, fails_if, fused_banks, inner_banks, refusals};

use crate::{Fails, FusedPages};
use disk_core::PageDisk;

// Which calls of a bank fail: these, if it is the fused one.
fn fails_at(at: Option<u32>, fails: Fails, i: usize) -> Fails
    ensures { result ≡ fails_if (is_at at i) fails }
{
    match at {
        Some(bank) if bank as usize == i => fails,
        _ => Fails::Never,
    }
}

fn count_at(refused: &[u64], i: usize) -> u64
    ensures { result ≡ slice_index refused.now i }
{
    if i < refused.len() { refused[i] } else { 0 }
}

// Into a vector with room for all.
pub(crate) fn fuse_banks<P: PageDisk + Drop>(
    banks: Vec<P>,
    into: Vec<FusedPages<P>>,
    at: Option<u32>,
    fails: Fails,
    refused: &[u64],
) -> Vec<FusedPages<P>>
    requires empty { into.items ≡ [] }
    requires room { length banks.items ≤ vec_capacity into }
    ensures { result.items ≡ fused_banks at fails refused.now 0 banks.items }
{
    let mut banks = banks;
    let mut into = into;
    while let Some(inner) = banks.pop() {
        let i = banks.len();
        let fails = fails_at(at, fails, i);
        let refused = count_at(refused, i);
        let Ok(()) = into.push(FusedPages {
            inner,
            fails,
            refused,
        }) else {
            unreachable!()
        };
    }
    into.reverse();
    into
}

// What is unwrapped of banks: they, and how many calls each refused.
pub(crate) fn unfuse_banks<P: PageDisk + Drop>(
    banks: Vec<FusedPages<P>>,
    into: Vec<P>,
    refused: Vec<u64>,
) -> (Vec<P>, Vec<u64>)
    requires empty { into.items ≡ [] }
    requires room { length banks.items ≤ vec_capacity into }
    requires empty_counts { refused.items ≡ [] }
    requires room_for_counts { length banks.items ≤ vec_capacity refused }
    ensures banks { result.0.items ≡ inner_banks banks.items }
    ensures refused { result.1.items ≡ refusals banks.items }
{
    let mut banks = banks;
    let mut into = into;
    let mut counts = refused;
    while let Some(bank) = banks.pop() {
        let FusedPages {
            inner,
            fails: _,
            refused,
        } = bank;
        let Ok(()) = into.push(inner) else {
            unreachable!()
        };
        let Ok(()) = counts.push(refused) else {
            unreachable!()
        };
    }
    into.reverse();
    counts.reverse();
    (into, counts)
}

//! Lists of a fixed number of items whose shares keep what they hold.

ghost use Rattle.std.specs.Prelude.{◌≡◌, ◌+◌, IsTrue, IfOk};

use shared_parts::{NoMemory, Share, SharedPages};
use std::alloc::Global;
use std::marker::Brand;
use std::sync::ledger::{Blank, Ledger};
use std::test::Fail;
use step_count::Steps;

/// Where numbers are put: at both ends of the list, and on both sides of an edge of pages.
const PLACES: &[usize] = &[0, 63, 64, 299];

/// The numbers below 300, of which those at some places are raised by a thousand.
fn numbers(alloc: Global, raised: &[usize]) -> Result<Vec<usize>, NoMemory> {
    let mut numbers = Vec::new(alloc);
    for number in 0..300 {
        let by = if raised.contains(&number) { 1_000 } else { 0 };
        numbers.push(number + by)?;
    }
    Ok(numbers)
}

/// Whether pages have these numbers.
fn shows(pages: &SharedPages<usize>, numbers: &[usize]) -> bool {
    for (index, number) in numbers.iter().enumerate() {
        if index >= pages.len() || pages.get(index) != number {
            return false;
        }
    }
    pages.len() == numbers.len()
}

fn crosses_threads<X: Send + Sync>(_value: &X) {}

/// Whether numbers can be put at the four places, so that a share taken before keeps what it holds. If so, they took a tick for each of 300 items, and one for each put.
fn four_are_put<L: Ledger>(alloc: Global, steps: &mut Steps<L>) -> Result<bool, NoMemory>
    ensures { IfOk result (λ holds. IsTrue holds → steps.new ≡ steps.old + 304) }
{
    let mut pages = SharedPages::of_list(alloc, numbers(alloc, &[])?, steps)?;
    if pages.len() != 300 {
        return Ok(false);
    }
    let kept = pages.share()?;
    crosses_threads(&kept);
    pages.put(0, 1_000, steps)?;
    pages.put(63, 1_063, steps)?;
    pages.put(64, 1_064, steps)?;
    pages.put(299, 1_299, steps)?;
    Ok(shows(&kept, &numbers(alloc, &[])?) && shows(&pages, &numbers(alloc, PLACES)?))
}

/// The same with a counter of its own.
fn counted<L: Ledger>(alloc: Global, blank: Blank) -> Result<bool, NoMemory>
    requires name { blank.name ≡ L.name }
    requires parts { blank.parts ≡ L.parts }
    requires some { blank.parts ≡ 1 }
{
    four_are_put(alloc, &mut Steps::<L>::of(blank))
}

fn shares_keep(alloc: Global) -> Result<bool, NoMemory> {
    counted::<Brand>(alloc, Blank::new(1))
}

#[test]
fn shares_keep_what_they_hold(rt: HostRuntime) -> Result<(), Fail> {
    assert!(rt; shares_keep(rt.alloc())?);
    Ok(())
}

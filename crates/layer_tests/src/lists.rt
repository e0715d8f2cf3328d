//! Lists whose shares keep what they hold.

use shared_parts::{NoMemory, Share, SharedList};
use std::alloc::Global;
use std::test::Fail;

fn push_all(list: &mut SharedList<u32>, numbers: &[u32]) -> Result<(), NoMemory> {
    for number in numbers {
        if let Err((refusal, _)) = list.push(*number) {
            return Err(refusal);
        }
    }
    Ok(())
}

/// The numbers from 1 to a number, and then some more.
fn counted(alloc: Global, last: u32, more: &[u32]) -> Result<Vec<u32>, NoMemory> {
    let mut numbers = Vec::new(alloc);
    for number in 1..=last {
        numbers.push(number)?;
    }
    numbers.extend_from_slice(more)?;
    Ok(numbers)
}

/// Whether a list has these numbers, by index and one after another.
fn shows(list: &SharedList<u32>, numbers: &[u32]) -> bool {
    for (index, number) in numbers.iter().enumerate() {
        if index >= list.len() || list.at(index) != number {
            return false;
        }
    }
    list.len() == numbers.len() && list.iter().eq(numbers)
}

/// The last number of a list that counts from 1, what one share of it gets, and what another gets.
const GROWN: &[(u32, &[u32], &[u32])] = &[
    (0, &[], &[]),
    (0, &[7], &[8, 9]),
    (1, &[7, 8], &[]),
    (2, &[7], &[8]),
    (3, &[7, 8, 9], &[7, 8]),
    (6, &[7], &[8, 9]),
    (14, &[7, 8], &[9]),
    (1_000, &[7], &[8, 9]),
];

/// Whether a list, two of its shares that grow apart and one that does not grow have what they should.
fn grows_apart(alloc: Global, last: u32, one: &[u32], other: &[u32]) -> Result<bool, NoMemory> {
    let mut first = SharedList::new(alloc);
    push_all(&mut first, &counted(alloc, last, &[])?)?;
    let kept = first.share()?;
    let mut second = kept.share()?;
    push_all(&mut first, one)?;
    push_all(&mut second, other)?;
    Ok(
        shows(&kept, &counted(alloc, last, &[])?)
            && shows(&first, &counted(alloc, last, one)?)
            && shows(&second, &counted(alloc, last, other)?),
    )
}

#[test]
fn shares_grow_apart(rt: HostRuntime) -> Result<(), Fail> {
    for (last, one, other) in GROWN {
        assert!(rt; grows_apart(rt.alloc(), *last, one, other)?, "after {last}");
    }
    Ok(())
}

fn crosses_threads<X: Send + Sync>(_value: &X) {}

/// A drop that went from each item to the one before it would run out of stack.
#[test]
fn holds_a_million(rt: HostRuntime) -> Result<(), Fail> {
    let numbers = counted(rt.alloc(), 1_000_000, &[])?;
    let mut list = SharedList::new(rt.alloc());
    push_all(&mut list, &numbers)?;
    crosses_threads(&list);
    assert!(rt; shows(&list, &numbers));
    Ok(())
}

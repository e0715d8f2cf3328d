//! Vectors that have room.

ghost use Rattle.std.specs.Prelude.{◌≡◌, ◌+◌, ◌*◌, ◌<◌, ◌≤◌, ◌∷◌, ◌++◌, [], vec_len, IfOk};
ghost use Rattle.std.specs.Vec.{vec_capacity};

use cim_words::NoMemory;

/// So many times a count. It is want of memory where that is no number of items.
pub(crate) fn times(count: usize, each: usize) -> Result<usize, NoMemory>
    ensures { IfOk result (λ product. product ≡ count * each) }
{
    match count.checked_mul(each) {
        Some(product) => Ok(product),
        None => Err(NoMemory),
    }
}

/// Appends an item to a vector that has room for it, which takes no memory.
pub(crate) fn put_within<T: Drop>(items: &mut Vec<T>, item: T)
    requires { vec_len items.old < vec_capacity items.old }
    ensures items { items.new.items ≡ items.old.items ++ item ∷ [] }
    ensures len { vec_len items.new ≡ vec_len items.old + 1 }
    ensures capacity { vec_capacity items.old ≤ vec_capacity items.new }
{
    items.push(item).unwrap();
}

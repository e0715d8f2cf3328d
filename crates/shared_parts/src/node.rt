//! The nodes of a shared list.

ghost use Rattle.std.specs.Prelude.{◌≡◌, ◌<◌, ◌++◌, ◌∷◌, [], length, slice_index_or, IfOk, IfErr};
ghost use Rattle.std.specs.Arc.{arc_value};
ghost use Rattle.shared_parts.specs.Places.{items, items_up_to, items_under, IsTreeBehind};

use crate::share::NoMemory;
use std::alloc::Global;
use std::marker::Model;
use std::sync::Arc;

/// A node that may be missing: the last node of a list, which an empty list lacks.
pub(crate) type Link<T> = Option<Arc<Node<T>>>;

/// The two trees under a node, the left one first. They are of the same size; a tree of one item has none.
type Twins<T> = Option<(Arc<Node<T>>, Arc<Node<T>>)>;

/// An item of a list, and the way to the items before it: it ends a complete tree, and other trees come before that one.
///
/// From a tree to the one before it sizes grow, so there are few trees, and a node is reached in a logarithmic number of steps.
// Fields are dropped in this order: `before` keeps the earlier trees until those under the node are gone, so that a drop goes no deeper than a few trees are high.
#[derive(Drop)]
pub(crate) struct Node<T> {
    /// How many items the list has up to this one.
    len: usize,
    item: T,
    under: Twins<T>,
    /// The last node before this node's tree.
    before: Link<T>,
}

impl<T> Model for Node<T> {
    ghost use Rattle.std.specs.Prelude.{◌≡◌, ◌+◌, ◌++◌, ◌∷◌, [], length};
    ghost use Rattle.shared_parts.specs.Places.{Place, items, items_up_to, items_under, IsTreeBehind};

    ghost Value = { Place T };

    ghost view = { λ n. record { earlier = items_up_to n.before; tree = items_under n.under ++ n.item ∷ [] } };

    ghost invariant = { λ n. (n.len ≡ length (items_up_to n.before ++ items_under n.under ++ n.item ∷ [])) × IsTreeBehind (items_up_to n.before) n.under };

    ghost size = { λ p. length p.earlier + length p.tree };

    ghost use Rattle.std.proofs.Common.{arith, length-append};

    ghost size_decreases = { λ a h. Prim.grind (arith, length-append) };
}

impl<T> Node<T> {
    /// How many items the list has up to this node.
    pub(crate) fn len(&self) -> usize
        ensures { result ≡ length (items self.now) }
    {
        self.len
    }

    /// The item at an index of the list up to this node.
    pub(crate) fn at(&self, index: usize) -> &T
        requires { index < length (items self.now) }
        ensures { result.now ≡ slice_index_or (items self.now) index result.now }
    {
        match &self.before {
            Some(before) if index < before.len() => return before.at(index),
            _ => {}
        }
        match &self.under {
            Some((left, _)) if index < left.len() => left.at(index),
            Some((_, right)) if index < right.len() => right.at(index),
            _ => &self.item,
        }
    }

    /// How many items this node's tree has.
    fn tree_len(&self) -> usize
        ensures { result ≡ length self.now.tree }
    {
        match &self.before {
            Some(before) => self.len - before.len(),
            None => self.len,
        }
    }
}

impl<T: Drop> Node<T> {
    /// A node for one more item of the list up to another node, or the item again where there is no memory for it.
    pub(crate) fn after(
        alloc: Global,
        last: &Link<T>,
        item: T,
    ) -> Result<Arc<Node<T>>, (NoMemory, T)>
        ensures ok { IfOk result (λ node. items (arc_value node) ≡ items_up_to last.now ++ item ∷ []) }
        ensures refused { IfErr result (λ refusal. refusal.1 ≡ item) }
    {
        let Some(len) = len_up_to(last).checked_add(1) else {
            return Err((NoMemory, item));
        };
        let Ok((under, before)) = next_place(last) else {
            return Err((NoMemory, item));
        };
        let node = Node {
            len,
            item,
            under,
            before,
        };
        match Arc::new(alloc, node) {
            Ok(node) => Ok(node),
            Err(failed) => {
                let node = failed.value;
                Err((NoMemory, node.item))
            }
        }
    }
}

/// How many items the list has up to a node that may be missing.
pub(crate) fn len_up_to<T>(last: &Link<T>) -> usize
    ensures { result ≡ length (items_up_to last.now) }
{
    match last {
        Some(node) => node.len(),
        None => 0,
    }
}

/// Another holder of a node that may be missing.
pub(crate) fn share_link<T>(link: &Link<T>) -> Result<Link<T>, NoMemory>
    ensures { IfOk result (λ share. items_up_to share ≡ items_up_to link.now) }
{
    match link {
        Some(node) => Ok(Some(Arc::try_clone(node)?)),
        None => Ok(None),
    }
}

/// What stands under the next node of a list, and before its tree: the last two trees go under it if they are of the same size, else it is a tree of its own.
fn next_place<T: Drop>(last: &Link<T>) -> Result<(Twins<T>, Link<T>), NoMemory>
    ensures tree { IfOk result (λ place. IsTreeBehind (items_up_to place.1) place.0) }
    ensures all { IfOk result (λ place. items_up_to place.1 ++ items_under place.0 ≡ items_up_to last.now) }
{
    let Some(right) = last else {
        return Ok((None, None));
    };
    match &right.before {
        Some(left) if left.tree_len() == right.tree_len() => {
            let under = Some((Arc::try_clone(left)?, Arc::try_clone(right)?));
            Ok((under, share_link(&left.before)?))
        }
        _ => Ok((None, Some(Arc::try_clone(right)?))),
    }
}

//! Values that many holders have at once, and lists whose shares keep what they hold.
#![tactic(auto)]

mod items;
mod leaf;
mod node;
mod page;
mod row;
mod share;
mod shared_list;
mod shared_pages;

pub use items::Items;
pub use share::{NoMemory, Share};
pub use shared_list::SharedList;
pub use shared_pages::SharedPages;

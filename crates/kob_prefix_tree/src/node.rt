//! A node as it is in memory.
use std::alloc::Global;

/// The contents of one place of the tree, the link to the child nodes and the link to the siblings.
///
/// The links are of any two types `C` and `N`, so that what a node owns is known before what a link
/// owns is defined.
#[derive(Drop)]
pub struct Node<T, C, N> {
    pub item: T,
    pub child: C,
    pub next: N,
    pub(crate) alloc: Global,
}

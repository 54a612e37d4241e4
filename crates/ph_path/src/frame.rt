//! Where a walk stands in a node.
use ph_node::{NodeOf, NodeRefOf};

/// A node that was visited.
pub type VisitOf<'t, P> = NodeRefOf<'t, NodeOf<P>>;

/// A visited node, the place of the entry that is to be looked at next, and what a walk notes of the node beside.
#[derive_where(Clone, Copy; M)]
pub struct FrameOf<'t, N, M> {
    pub node: NodeRefOf<'t, N>,
    pub place: usize,
    pub note: M,
}

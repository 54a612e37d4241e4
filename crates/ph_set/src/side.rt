//! Nodes that are gone through side by side.
ghost use Rattle.std.specs.Prelude.{◌≡◌, ◌<◌, ◌^◌};
ghost use Rattle.ph_model.specs.ModelNames.{entries};
ghost use Rattle.ph_node.specs.Places.{place_for};
ghost use Rattle.ph_node.specs.Shown.{shown};

use ph_coord::Dims;
use ph_node::{NodeOf, NodeRefOf};

/// A visited node, with the digits that are known above its level.
#[derive_where(Clone, Copy)]
pub(crate) struct SideOf<'t, N> {
    pub(crate) node: NodeRefOf<'t, N>,
    pub(crate) digits: &'t [u64; 16],
}

/// The place of the first entry whose address is not below `addr`, or the place behind all entries.
pub(crate) fn place_from<P: Dims>(node: NodeRefOf<'_, NodeOf<P>>, addr: u32) -> usize
    requires { addr < 2 ^ P.D }
    ensures { result ≡ place_for addr (entries (shown node.entry)) }
{
    match node.next_at_or_after(addr) {
        Some(place) => place,
        None => node.len(),
    }
}

//! NodeIds.

ghost use Rattle.std.specs.Prelude.{◌≡◌, ◌++◌, ℕ, List, IfOk, IsErrOf};
ghost use Rattle.ua_wire.specs.Exact.{Begins};
ghost use Rattle.ua_wire.specs.declared.fault.ReadFault.TheVariants.{NoValue};
ghost use Rattle.ua_builtin.specs.NodeId.{node_id};
ghost use Rattle.ua_builtin.specs.declared.node_id.NodeId.{NodeId};

use std::alloc::Global;
use ua_builtin::{MOST_LEVELS, NodeId, Octets, ReadFault, Wire};

/// The NodeId that bytes begin with, and what is after it.
pub fn read_node_id<'a>(alloc: Global, octets: &'a [u8]) -> Result<(NodeId, Octets<'a>), ReadFault>
    ensures found { IfOk result (λ r. Begins node_id.encodes octets.now r.0 r.1) }
    ensures none { IsErrOf result NoValue → (v : NodeId) (front rest : List ℕ) → octets.now ≡ front ++ rest
        → ¬ (node_id.encodes v front) }
{
    let mut source = Octets::new(octets);
    let id = NodeId::read(alloc, &mut source, MOST_LEVELS)?;
    Ok((id, source))
}

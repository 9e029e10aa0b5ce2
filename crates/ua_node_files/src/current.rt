//! The server's time, as its node CurrentTime has it (OPC 10000-5, 6.3.3).

ghost use Rattle.std.specs.Prelude.{◌≡◌};
ghost use Rattle.ua_node_files.specs.CurrentTime.{current_time as reading_at, current_time_id as id};
ghost use Rattle.ua_node_files.specs.Standard.{lacks as lacks_node};

use ua_builtin::{DateTime, Identifier, NodeId};
use ua_nodes::{NodeTable, Reading};
use ua_variant::{Scalar, Variant};

/// The number of CurrentTime in namespace 0.
const NUMBER: u32 = 2258;

/// The NodeId of CurrentTime: `i=2258`. Allocates nothing.
pub fn current_time_id() -> NodeId
    ensures { result ≡ id }
{
    NodeId::new(0, Identifier::Numeric(NUMBER))
}

/// The reading of CurrentTime at a given time: that time, also as its SourceTimestamp, and no
/// status. Allocates nothing.
pub fn current_time(moment: DateTime) -> Reading
    ensures { result ≡ reading_at moment }
{
    Reading {
        value: Variant::One(Scalar::DateTime(moment)),
        status: None,
        source_time: moment,
        source_picoseconds: None,
    }
}

/// Whether the table has no node CurrentTime.
pub fn lacks_current_time(nodes: &NodeTable) -> bool
    ensures { result ≡ lacks_node nodes.now 2258 }
{
    nodes.get(&current_time_id()).is_none()
}

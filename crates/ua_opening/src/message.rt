//! Messages: a structure after the NodeId of its encoding.

ghost use Rattle.std.specs.Prelude.{◌≡◌, ◌≤◌, ◌++◌, ◌<◌, ◌^◌, ◌↔◌, [], List, ℕ};
ghost use Rattle.std.specs.Prelude.{IsTrue, IsFalse, IfOk, OnOk, OnErr, IsErrOf};
ghost use Rattle.ua_builtin.specs.Exact.{image_read};
ghost use Rattle.ua_builtin.specs.Format.{most_levels, Extends, Gives, StaysBehind};
ghost use Rattle.ua_builtin.specs.NodeId.{node_id};
ghost use Rattle.ua_wire.specs.declared.fault.ReadFault.TheVariants.{NoValue};
ghost use Rattle.ua_wire.specs.declared.fault.WriteFault.TheVariants.{NotWritable};
ghost use Rattle.ua_opening.specs.Message.{IsBody, IsNoBody, message, standard, standard_number as number_of_id};

use std::alloc::{AllocError, Global};
use ua_builtin::{Identifier, MOST_LEVELS, NodeId, ReadFault, Source, Wire, WriteFault};

/// The numeric identifier of a NodeId in namespace 0.
pub fn standard_number(id: &NodeId) -> Option<u32>
    ensures { result ≡ number_of_id id.now }
{
    match &id.identifier {
        Identifier::Numeric(number) if id.namespace == 0 => Some(*number),
        _ => None,
    }
}

/// The NodeId of the standard's namespace with this number.
fn standard_id(number: u32) -> NodeId
    ensures { result ≡ standard number }
{
    NodeId::new(0, Identifier::Numeric(number))
}

/// The bytes that a body is given room for before it is written: most requests and responses of a
/// few nodes take fewer, and are then written without being moved.
const BODY_ROOM: usize = 256;

/// An empty vector for a body. It has capacity for a small message unless that allocation fails;
/// then the writer allocates what it needs.
pub fn empty_body(alloc: Global) -> Vec<u8>
    ensures { result.items ≡ [] }
{
    let mut body = Vec::new(alloc);
    let _has_room = body.reserve(BODY_ROOM).is_ok();
    body
}

/// Appends the canonical encoding of the NodeId of the standard's namespace with this number.
#[inline]
fn append_number(number: u32, out: &mut Vec<u8>) -> Result<(), AllocError>
    requires { IsTrue (node_id.encodable (standard number)) }
    ensures ok { OnOk result (out.new.items ≡ out.old.items ++ node_id.canonical (standard number)) }
    ensures err { OnErr result (Extends out.old.items out.new.items) }
{
    if number < 256 || number >= 65536 {
        return standard_id(number).append(out);
    }
    // nearly always: the form of four bytes, which names the namespace 0
    let octets = [0x01, 0x00, (number % 256) as u8, (number / 256) as u8];
    out.extend_from_slice(&octets)?;
    Ok(())
}

/// Appends the NodeId of this number in namespace 0, and the canonical encoding of a structure.
pub fn append_message<T: Wire>(number: u32, value: &T, out: &mut Vec<u8>) -> Result<(), AllocError>
    requires known { IsTrue (node_id.encodable (standard number)) }
    requires value { IsTrue (T.format.encodable value.now) }
    ensures ok { OnOk result
        (out.new.items ≡ out.old.items ++ (node_id.canonical (standard number) ++ T.format.canonical value.now)) }
    ensures err { OnErr result (Extends out.old.items out.new.items) }
{
    append_number(number, out)?;
    value.append(out)?;
    Ok(())
}

/// Decodes the value that is the whole source, with nothing after it.
pub fn read_whole<T: Wire + Drop, S: Source>(alloc: Global, src: &mut S) -> Result<T, ReadFault>
    ensures found { IfOk result (λ m. IsBody T.format m (S.octets src.old)) }
    ensures none { IsErrOf result NoValue → IsNoBody T.format (S.octets src.old) }
{
    T::lawful();
    let value = T::read_value(alloc, src, MOST_LEVELS)?;
    if src.left() > 0 {
        return Err(ReadFault::NoValue);
    }
    Ok(value)
}

/// Decodes the message, of this encoding's number, that is the whole source, with nothing after it.
pub(crate) fn read_message<T: Wire + Drop, S: Source>(
    alloc: Global,
    src: &mut S,
    number: u32,
) -> Result<T, ReadFault>
    ensures found { IfOk result (λ m. IsBody (message number T.format) m (S.octets src.old)) }
    ensures none { IsErrOf result NoValue → IsNoBody (message number T.format) (S.octets src.old) }
{
    T::lawful();
    let id = NodeId::read_value(alloc, src, MOST_LEVELS)?;
    let Some(found) = standard_number(&id) else {
        return Err(ReadFault::NoValue);
    };
    if found != number {
        return Err(ReadFault::NoValue);
    }
    read_whole(alloc, src)
}

/// Appends the NodeId of this number in namespace 0, and the canonical encoding of a structure. On
/// an error the vector is unchanged.
pub(crate) fn write_message<T: Wire>(
    number: u32,
    value: &T,
    out: &mut Vec<u8>,
) -> Result<(), WriteFault>
    requires known { IsTrue (node_id.encodable (standard number)) }
    ensures ok { OnOk result
        (out.new.items ≡ out.old.items ++ (node_id.canonical (standard number) ++ T.format.canonical value.now)) }
    ensures err { OnErr result (out.new.items ≡ out.old.items) }
    ensures refused { IsErrOf result NotWritable ↔ IsFalse (T.format.encodable value.now) }
{
    if !value.is_encodable() {
        return Err(WriteFault::NotWritable);
    }
    let len = out.len();
    if append_message(number, value, out).is_err() {
        out.truncate(len);
        return Err(WriteFault::OutOfMemory);
    }
    Ok(())
}

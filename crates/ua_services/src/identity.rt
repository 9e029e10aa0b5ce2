//! User identity tokens in ExtensionObjects.

ghost use Rattle.std.specs.Prelude.{◌≡◌, ◌↔◌, IfOk, IsErrOf, IsFalse};
ghost use Rattle.ua_wire.specs.declared.fault.ReadFault.TheVariants.{NoValue};
ghost use Rattle.ua_wire.specs.declared.fault.WriteFault.TheVariants.{NotWritable};
ghost use Rattle.ua_structures.specs.Session.{anonymous_identity_token};
ghost use Rattle.ua_services.specs.Identity.{CarriesToken, CarriesNone, identity_object};

use std::alloc::Global;
use ua_builtin::{
    ExtensionBody, ExtensionObject, Identifier, NodeId, Octets, ReadFault, UaBytes, Wire,
    WriteFault,
};
use ua_opening::{read_whole, standard_number};
use ua_structures::AnonymousIdentityToken;

/// The number of the encoding of an AnonymousIdentityToken (OPC 10000-6, A.3).
const ANONYMOUS: u32 = 321;

/// The ExtensionObject of a token: its type is i=321, and its body the token's canonical encoding.
pub fn write_identity(
    alloc: Global,
    token: &AnonymousIdentityToken,
) -> Result<ExtensionObject, WriteFault>
    ensures ok { IfOk result (λ object. object ≡ identity_object (anonymous_identity_token.canonical token.now)) }
    ensures refused { IsErrOf result NotWritable ↔ IsFalse (anonymous_identity_token.encodable token.now) }
{
    let mut octets = Vec::new(alloc);
    token.write(&mut octets)?;
    Ok(ExtensionObject {
        type_id: NodeId::new(0, Identifier::Numeric(ANONYMOUS)),
        body: ExtensionBody::ByteString(UaBytes::new(Some(octets))),
    })
}

/// The token of an ExtensionObject: its type is i=321, and its body a ByteString that is one
/// AnonymousIdentityToken with nothing after it.
pub fn read_identity(
    alloc: Global,
    object: &ExtensionObject,
) -> Result<AnonymousIdentityToken, ReadFault>
    ensures found { IfOk result (λ token. CarriesToken object.now token) }
    ensures none { IsErrOf result NoValue → CarriesNone object.now }
{
    if standard_number(&object.type_id) != Some(ANONYMOUS) {
        return Err(ReadFault::NoValue);
    }
    let ExtensionBody::ByteString(body) = &object.body else {
        return Err(ReadFault::NoValue);
    };
    let Some(octets) = body.as_octets() else {
        return Err(ReadFault::NoValue);
    };
    read_whole(alloc, &mut Octets::new(octets))
}

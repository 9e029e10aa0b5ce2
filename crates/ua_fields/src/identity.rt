//! ExtensionObjects, and the identity tokens that they hold, as lines.

ghost use Rattle.std.specs.Prelude.{◌≡◌, IfOk, IsTrue, None, Option, List, OnOk, ℕ, option_map, string_bytes};
ghost use Rattle.ua_opening.specs.Message.{body_of};
ghost use Rattle.ua_fields.specs.Leaves.{extension_object_tree, object_or_token};
ghost use Rattle.ua_fields.specs.Leaves.{octets_of_body as octets_in, token_as, token_numbered};
ghost use Rattle.ua_fields.specs.Tree.{IsBehind, Tree};

use crate::lines::{Lines, Place, deeper_margin, push_fields, push_line, push_start};
use crate::null::is_null_object;
use crate::text::push_encoded_or_null;
use std::alloc::{AllocError, Global};
use ua_builtin::{
    ExtensionBody, ExtensionObject, MOST_LEVELS, Octets, ReadFault, Source, UaBytes, UaString, Wire,
};
use ua_opening::standard_number;
use ua_services::AnonymousIdentityToken;

/// The numbers of the encodings of identity tokens (OPC 10000-6, A.3).
const ANONYMOUS: u32 = 321;

const USER_NAME: u32 = 324;

const X509: u32 = 327;

const ISSUED: u32 = 940;

/// The fields of a UserNameIdentityToken: its policy, the name and the password of a user, and how
/// that is encrypted (OPC 10000-4, 7.41.4).
type UserName = (UaString, (UaString, (UaBytes, UaString)));

/// The fields of an X509IdentityToken: its policy, and the certificate of a user (OPC 10000-4,
/// 7.41.5).
type Certificate = (UaString, UaBytes);

/// The fields of an IssuedIdentityToken: its policy, what another service issued for a user, and how
/// that is encrypted (OPC 10000-4, 7.41.6).
type Issued = (UaString, (UaBytes, UaString));

impl Lines for AnonymousIdentityToken {
    ghost use Rattle.ua_fields.specs.Tree.{structure};
    ghost use Rattle.ua_fields.specs.Leaves.{anonymous_token_entries};

    ghost tree = { λ m. structure (anonymous_token_entries m) };

    fn is_structure() -> bool {
        true
    }

    fn push_lines(&self, alloc: Global, out: &mut String, place: Place) -> Result<(), AllocError> {
        push_fields!(self, alloc, out, place => policy_id)
    }
}

impl Lines for UserName {
    ghost use Rattle.ua_fields.specs.Tree.{structure};
    ghost use Rattle.ua_fields.specs.Leaves.{user_name_token_entries};

    ghost tree = { λ m. structure (user_name_token_entries m) };

    fn is_structure() -> bool {
        true
    }

    fn push_lines(&self, alloc: Global, out: &mut String, place: Place) -> Result<(), AllocError> {
        place.push_field(alloc, out, "policy_id", &self.0)?;
        place.push_field(alloc, out, "user_name", &self.1.0)?;
        place.push_field(alloc, out, "password", &self.1.1.0)?;
        place.push_field(alloc, out, "encryption_algorithm", &self.1.1.1)?;
        Ok(())
    }
}

impl Lines for Certificate {
    ghost use Rattle.ua_fields.specs.Tree.{structure};
    ghost use Rattle.ua_fields.specs.Leaves.{certificate_token_entries};

    ghost tree = { λ m. structure (certificate_token_entries m) };

    fn is_structure() -> bool {
        true
    }

    fn push_lines(&self, alloc: Global, out: &mut String, place: Place) -> Result<(), AllocError> {
        place.push_field(alloc, out, "policy_id", &self.0)?;
        place.push_field(alloc, out, "certificate_data", &self.1)?;
        Ok(())
    }
}

impl Lines for Issued {
    ghost use Rattle.ua_fields.specs.Tree.{structure};
    ghost use Rattle.ua_fields.specs.Leaves.{issued_token_entries};

    ghost tree = { λ m. structure (issued_token_entries m) };

    fn is_structure() -> bool {
        true
    }

    fn push_lines(&self, alloc: Global, out: &mut String, place: Place) -> Result<(), AllocError> {
        place.push_field(alloc, out, "policy_id", &self.0)?;
        place.push_field(alloc, out, "token_data", &self.1.0)?;
        place.push_field(alloc, out, "encryption_algorithm", &self.1.1)?;
        Ok(())
    }
}

/// The value that these bytes encode, with nothing after it.
fn value_of<T: Wire + Drop>(alloc: Global, octets: &[u8]) -> Result<Option<T>, AllocError>
    ensures { IfOk result (λ found. found ≡ body_of T.format octets.now) }
{
    let mut src = Octets::new(octets);
    match T::read_value(alloc, &mut src, MOST_LEVELS) {
        Ok(value) if src.left() == 0 => Ok(Some(value)),
        Ok(_) => Ok(None),
        Err(ReadFault::NoValue) => Ok(None),
        Err(ReadFault::OutOfMemory) => Err(AllocError),
    }
}

/// Appends the line of an ExtensionObject by its bytes, that of a null one as `null`.
fn push_octets_line(
    alloc: Global,
    object: &ExtensionObject,
    out: &mut String,
    place: Place<'_>,
) -> Result<(), AllocError>
    ensures { OnOk result (IsBehind place.entry.style place.entry.margin.now place.entry.path.now
        (string_bytes out.old) (object_or_token object.now None) (string_bytes out.new)) }
{
    push_start(out, place)?;
    push_encoded_or_null(alloc, out, is_null_object(object), object)?;
    out.push_str("\n")
}

/// Appends an identity token: a line with the name of its type, and its fields one level deeper; the
/// bytes of the ExtensionObject, unless the others encode a token with nothing after it.
fn push_token<T: Lines + Wire + Drop>(
    alloc: Global,
    object: &ExtensionObject,
    octets: &[u8],
    name: &str,
    out: &mut String,
    place: Place<'_>,
) -> Result<(), AllocError>
    requires plain { IsTrue place.style.plain }
    ensures { OnOk result (IsBehind place.entry.style place.entry.margin.now place.entry.path.now
        (string_bytes out.old) (object_or_token object.now (token_as name.now T.tree (body_of T.format octets.now)))
        (string_bytes out.new)) }
{
    let found: Option<T> = value_of(alloc, octets)?;
    let Some(token) = found else {
        return push_octets_line(alloc, object, out, place);
    };
    push_line(out, place, name)?;
    let margin = deeper_margin(alloc, place.margin)?;
    let inner = Place {
        style: place.style,
        margin: &margin,
        path: place.path,
    };
    token.push_lines(alloc, out, inner)
}

/// Appends the identity token that bytes of an encoding with this number encode, or the bytes of the
/// ExtensionObject.
fn push_numbered(
    alloc: Global,
    object: &ExtensionObject,
    number: u32,
    octets: &[u8],
    out: &mut String,
    place: Place<'_>,
) -> Result<(), AllocError>
    requires { IsTrue place.style.plain }
    ensures { OnOk result (IsBehind place.entry.style place.entry.margin.now place.entry.path.now
        (string_bytes out.old) (object_or_token object.now (token_numbered number octets.now))
        (string_bytes out.new)) }
{
    match number {
        ANONYMOUS => {
            let name = "AnonymousIdentityToken";
            push_token::<AnonymousIdentityToken>(alloc, object, octets, name, out, place)
        }
        USER_NAME => {
            push_token::<UserName>(alloc, object, octets, "UserNameIdentityToken", out, place)
        }
        X509 => push_token::<Certificate>(alloc, object, octets, "X509IdentityToken", out, place),
        ISSUED => push_token::<Issued>(alloc, object, octets, "IssuedIdentityToken", out, place),
        _ => push_octets_line(alloc, object, out, place),
    }
}

/// The bytes of a body of bytes, `None` for null.
fn octets_of_body(body: &ExtensionBody) -> Option<&[u8]>
    ensures { option_map (λ o. o.now) result ≡ octets_in body.now }
{
    match body {
        ExtensionBody::ByteString(octets) => octets.as_octets(),
        _ => None,
    }
}

impl Lines for ExtensionObject {
    ghost use Rattle.ua_fields.specs.Leaves.{extension_object_tree};

    ghost tree = { extension_object_tree };

    fn is_structure() -> bool {
        false
    }

    fn push_lines(&self, alloc: Global, out: &mut String, place: Place) -> Result<(), AllocError> {
        if !place.style.plain {
            return push_octets_line(alloc, self, out, place);
        }
        let Some(number) = standard_number(&self.type_id) else {
            return push_octets_line(alloc, self, out, place);
        };
        let Some(octets) = octets_of_body(&self.body) else {
            return push_octets_line(alloc, self, out, place);
        };
        push_numbered(alloc, self, number, octets, out, place)
    }
}

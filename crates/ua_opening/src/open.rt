//! The messages of the SecureChannel services.

ghost use Rattle.std.specs.Prelude.{◌≡◌, ◌++◌, ◌↔◌, ◌⊎◌, IfOk, IsErrOf, OnOk, OnErr, IsFalse};
ghost use Rattle.ua_wire.specs.declared.fault.ReadFault.TheVariants.{NoValue};
ghost use Rattle.ua_wire.specs.declared.fault.WriteFault.TheVariants.{NotWritable};
ghost use Rattle.ua_opening.specs.SecureChannel.{open_request, open_response, close_request};
ghost use Rattle.ua_opening.specs.Message.{IsBody, IsNoBody, message, body_of, found_or};
ghost use Rattle.ua_opening.specs.Open.{IsOpenAnswer, IsNoOpenAnswer, answer_read};

use crate::header::ServiceFault;
use crate::message::{read_message, read_whole, standard_number, write_message};
use crate::secure_channel::{CloseRequest, OpenRequest, OpenResponse};
use std::alloc::Global;
use ua_builtin::{MOST_LEVELS, NodeId, ReadFault, Source, Wire, WriteFault};

/// The response to an OpenSecureChannel request.
#[derive(Debug, Drop)]
pub enum OpenAnswer {
    Open(OpenResponse),
    Fault(ServiceFault),
}

/// Decodes a body that is one OpenSecureChannel request with nothing after it. After an error,
/// discard the source.
pub fn read_open_request<S: Source>(alloc: Global, src: &mut S) -> Result<OpenRequest, ReadFault>
    ensures read { (result ≡ found_or (body_of (message 446 open_request) (S.octets src.old)) NoValue)
        ⊎ (result ≡ Err ReadFault.OutOfMemory) }
    ensures found { IfOk result (λ m. IsBody (message 446 open_request) m (S.octets src.old)) }
    ensures none { IsErrOf result NoValue → IsNoBody (message 446 open_request) (S.octets src.old) }
{
    read_message(alloc, src, 446)
}

/// Appends the canonical body of an OpenSecureChannel request. On an error the vector is unchanged.
#[tactic(auto, unfolding(ua_builtin::specs::NodeId::node_id))]
pub fn write_open_request(request: &OpenRequest, out: &mut Vec<u8>) -> Result<(), WriteFault>
    ensures ok { OnOk result (out.new.items ≡ out.old.items ++ (message 446 open_request).canonical request.now) }
    ensures err { OnErr result (out.new.items ≡ out.old.items) }
    ensures refused { IsErrOf result NotWritable ↔ IsFalse ((message 446 open_request).encodable request.now) }
{
    write_message(446, request, out)
}

// Reads an answer by the NodeId that it begins with.
fn read_answer<S: Source>(alloc: Global, src: &mut S) -> Result<OpenAnswer, ReadFault>
    ensures found { IfOk result (λ answer. IsOpenAnswer answer (S.octets src.old)) }
    ensures none { IsErrOf result NoValue → IsNoOpenAnswer (S.octets src.old) }
{
    let id = NodeId::read_value(alloc, src, MOST_LEVELS)?;
    match standard_number(&id) {
        Some(449) => Ok(OpenAnswer::Open(read_whole(alloc, src)?)),
        Some(397) => Ok(OpenAnswer::Fault(read_whole(alloc, src)?)),
        _ => Err(ReadFault::NoValue),
    }
}

/// Decodes a body that is one OpenSecureChannel response, or one ServiceFault, with nothing after
/// it. After an error, discard the source.
pub fn read_open_response<S: Source>(alloc: Global, src: &mut S) -> Result<OpenAnswer, ReadFault>
    ensures read { (result ≡ found_or (answer_read (S.octets src.old)) NoValue) ⊎ (result ≡ Err ReadFault.OutOfMemory) }
    ensures found { IfOk result (λ answer. IsOpenAnswer answer (S.octets src.old)) }
    ensures none { IsErrOf result NoValue → IsNoOpenAnswer (S.octets src.old) }
{
    read_answer(alloc, src)
}

/// Appends the canonical body of an OpenSecureChannel response. On an error the vector is
/// unchanged.
#[tactic(auto, unfolding(ua_builtin::specs::NodeId::node_id))]
pub fn write_open_response(response: &OpenResponse, out: &mut Vec<u8>) -> Result<(), WriteFault>
    ensures ok { OnOk result (out.new.items ≡ out.old.items ++ (message 449 open_response).canonical response.now) }
    ensures err { OnErr result (out.new.items ≡ out.old.items) }
    ensures refused { IsErrOf result NotWritable ↔ IsFalse ((message 449 open_response).encodable response.now) }
{
    write_message(449, response, out)
}

/// Appends the canonical body of a CloseSecureChannel request. On an error the vector is unchanged.
#[tactic(auto, unfolding(ua_builtin::specs::NodeId::node_id))]
pub fn write_close_request(request: &CloseRequest, out: &mut Vec<u8>) -> Result<(), WriteFault>
    ensures ok { OnOk result (out.new.items ≡ out.old.items ++ (message 452 close_request).canonical request.now) }
    ensures err { OnErr result (out.new.items ≡ out.old.items) }
    ensures refused { IsErrOf result NotWritable ↔ IsFalse ((message 452 close_request).encodable request.now) }
{
    write_message(452, request, out)
}

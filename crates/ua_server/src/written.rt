//! What a Write stored.

ghost use Rattle.std.specs.Prelude.{◌≡◌, ◌++◌, ◌∷◌, [], cond, IfOk, OnOk, Ok};
ghost use Rattle.std.specs.List.{concat};
ghost use Rattle.ua_services.specs.Request.{request_read};
ghost use Rattle.ua_server.specs.Attributes.{items_of};
ghost use Rattle.ua_server.specs.Stored.{begins_good, behind_code, good_items, items_written};

use std::alloc::{AllocError, Global};
use std::marker::Model;
use std::mem;
use ua_builtin::StatusCode;
use ua_chunk::Message;
use ua_services::{Request, RequestFault, UaArray, WriteValue, read_request};

/// The items that a Write stored (OPC 10000-4, 5.11.4), as the message that brought them and the
/// results of its items. Nothing is decoded again before [`values`](Written::values) is called.
#[derive(Debug, Drop)]
pub struct Written {
    message: Option<Message>,
    results: UaArray<StatusCode>,
}

impl Model for Written {
    ghost use Rattle.std.specs.Prelude.{List};
    ghost use Rattle.std.specs.Coded.{codes};
    ghost use Rattle.ua_structures.specs.declared.attribute.WriteValue.{WriteValue};
    ghost use Rattle.ua_variant.specs.contracts.values.HeldVariant as held;
    ghost use Rattle.ua_server.specs.Attributes.{items_of};
    ghost use Rattle.ua_server.specs.Stored.{good_items, items_kept};

    ghost Value = { List WriteValue };

    ghost coded = { Prim.hlevel (codes, held.the_row.coded) };

    ghost view = { λ w. good_items (items_kept w.message) (items_of w.results) };
}

impl Written {
    /// Nothing was stored. Allocates nothing.
    pub fn nothing() -> Written
        ensures { result ≡ [] }
    {
        Written {
            message: None,
            results: UaArray::null(),
        }
    }

    /// Lets go of what was stored.
    pub(crate) fn forget(&mut self)
        ensures { self.new ≡ [] }
    {
        if self.message.is_some() {
            *self = Written::nothing();
        }
    }

    /// Takes in, where it is empty, what the Write in a message with these results stored: nothing
    /// where they are null.
    #[tactic(auto, using(crate::proofs::Stores::good_nothing))]
    pub(crate) fn keep(&mut self, message: Message, results: UaArray<StatusCode>)
        requires { self.old ≡ [] }
        ensures { self.new ≡ good_items (items_written (request_read (concat message))) (items_of results) }
    {
        if results.as_items().is_none() {
            drop(message);
            drop(results);
            return;
        }
        *self = Written {
            message: Some(message),
            results,
        };
    }

    /// The items that were stored, in the order of the Write: each with its NodeId, the attribute
    /// Value, and the value, status and source timestamp that were stored. Decodes the Write again,
    /// and allocates memory for all of its items, also those that were not stored.
    pub fn values(&self, alloc: Global) -> Result<Vec<WriteValue>, AllocError>
        ensures { IfOk result (λ values. values.items ≡ self.now) }
    {
        let Some(message) = &self.message else {
            return Ok(Vec::new(alloc));
        };
        match read_request(alloc, &mut message.source()) {
            Ok(request) => {
                let items = into_items_written(alloc, request);
                keep_good(alloc, items, self.results.as_items().unwrap_or(&[]))
            }
            Err(RequestFault::OutOfMemory) => Err(AllocError),
            Err(_) => Ok(Vec::new(alloc)),
        }
    }
}

/// The items of a Write, none of another request.
fn into_items_written(alloc: Global, request: Request) -> Vec<WriteValue>
    ensures { result.items ≡ items_written (Ok request) }
{
    let mut request = request;
    let items = match &mut request {
        Request::Write(message) => mem::replace(&mut message.nodes_to_write, UaArray::null()),
        _ => UaArray::null(),
    };
    drop(request);
    match items.into_items() {
        Some(items) => items,
        None => Vec::new(alloc),
    }
}

/// The items whose results are Good.
fn keep_good(
    alloc: Global,
    items: Vec<WriteValue>,
    results: &[StatusCode],
) -> Result<Vec<WriteValue>, AllocError>
    ensures { IfOk result (λ values. values.items ≡ good_items items.items results.now) }
{
    let mut good = Vec::new(alloc);
    let mut codes = results;
    for item in items {
        let (is_good, rest) = first_code(codes);
        push_if(&mut good, item, is_good)?;
        codes = rest;
    }
    Ok(good)
}

/// Whether the first code is there and is Good, and the codes after it.
fn first_code(codes: &[StatusCode]) -> (bool, &[StatusCode])
    ensures good { result.0 ≡ begins_good codes.now }
    ensures rest { result.1.now ≡ behind_code codes.now }
{
    match codes.split_first() {
        Some((code, rest)) => (code.code == StatusCode::GOOD.code, rest),
        None => (false, codes),
    }
}

/// Adds an item, where it is to be kept.
fn push_if(good: &mut Vec<WriteValue>, item: WriteValue, keep: bool) -> Result<(), AllocError>
    ensures { OnOk result (good.new.items ≡ good.old.items ++ cond keep (item ∷ []) []) }
{
    if !keep {
        drop(item);
        return Ok(());
    }
    good.push(item)?;
    Ok(())
}

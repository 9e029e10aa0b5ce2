//! Requests that are answered.

ghost use Rattle.std.specs.Prelude.{◌≡◌, IfOk};
ghost use Rattle.ua_nodes.specs.Set.{after_set};
ghost use Rattle.ua_services.specs.Response.{response};
ghost use Rattle.ua_server.specs.Answer.{answer};
ghost use Rattle.ua_server.specs.Reply.{answered};
ghost use Rattle.ua_server.specs.State.{with_nodes};

use std::alloc::{AllocError, Global};
use ua_builtin::{DateTime, NodeId, Source, StatusCode};
use ua_nodes::Reading;
use ua_server::Services;
use ua_services::{Request, Response, response_body};

/// The body of the reply to a message.
pub fn reply_to<S: Source>(
    services: &mut Services,
    alloc: Global,
    src: &mut S,
    moment: DateTime,
) -> Result<Vec<u8>, AllocError>
    ensures body { IfOk result
        (λ body. body.items ≡ response.canonical (answered services.old moment (S.octets src.old)).1) }
    ensures state { IfOk result (λ body. services.new ≡ (answered services.old moment (S.octets src.old)).0) }
{
    services.reply(alloc, src, moment)
}

/// The responses to two requests, the second from what the first leaves.
pub fn answer_both(
    services: &mut Services,
    alloc: Global,
    first: Request,
    second: Request,
    moment: DateTime,
) -> (Result<Response, AllocError>, Result<Response, AllocError>)
    ensures first { IfOk result.0 (λ r. r ≡ (answer services.old moment first).1) }
    ensures second { IfOk result.0
        (λ _. IfOk result.1 (λ r. r ≡ (answer (answer services.old moment first).0 moment second).1)) }
    ensures state { IfOk result.0
        (λ _. IfOk result.1 (λ _. services.new ≡ (answer (answer services.old moment first).0 moment second).0)) }
{
    let one = services.answer(alloc, first, moment);
    let two = services.answer(alloc, second, moment);
    (one, two)
}

/// The response to a request after a reading that the application sets.
pub fn answer_behind_set(
    services: &mut Services,
    alloc: Global,
    sensor: &NodeId,
    reading: Reading,
    request: Request,
    moment: DateTime,
) -> Result<Response, AllocError>
    ensures response { IfOk result
        (λ r. r ≡ (answer (with_nodes services.old (after_set sensor.now reading services.old.nodes)) moment
        request).1) }
{
    let _set = services.set(sensor, reading);
    services.answer(alloc, request, moment)
}

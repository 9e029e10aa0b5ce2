//! The token policy of a session.

ghost use Rattle.std.specs.Prelude.{◌≡◌, Ok};
ghost use Rattle.ua_client.specs.declared.reply.Reply.TheVariants.{Response as Responds};
ghost use Rattle.ua_session.specs.Policy.{ChoosesAmong, ChoosesBy};

use crate::answer::response_of;
use crate::fault::QuestionFault;
use ua_builtin::UaString;
use ua_client::{ClientFault, Reply};
use ua_services::{Response, chosen_id};
use ua_structures::EndpointDescription;

/// The token policy for anonymous users by which a session is begun.
#[derive(Debug, Drop)]
pub enum TokenPolicy {
    /// The one with this PolicyId.
    Named(UaString),
    /// The first one of the first endpoint by UA TCP and without security that has one; the server
    /// is asked for it.
    Auto,
}

/// The PolicyId that endpoints give.
fn choose_among(endpoints: &[EndpointDescription]) -> Result<UaString, QuestionFault>
    ensures { ChoosesAmong endpoints.now result }
{
    match chosen_id(endpoints) {
        Some(id) => match id.try_clone() {
            Ok(id) => Ok(id),
            Err(_) => Err(QuestionFault::NoMemory),
        },
        None => Err(QuestionFault::NoPolicy),
    }
}

/// The PolicyId that the endpoints in a response give.
fn choose_in(response: &Response) -> Result<UaString, QuestionFault>
    ensures { ChoosesBy (Ok (Responds response.now)) result }
{
    match response {
        Response::GetEndpoints(message) => {
            let endpoints = message.endpoints.as_items().unwrap_or(&[]);
            choose_among(endpoints)
        }
        Response::ServiceFault(fault) => {
            Err(QuestionFault::Service(fault.response_header.service_result))
        }
        _ => Err(QuestionFault::Connection(ClientFault::UnknownResponse)),
    }
}

/// The PolicyId that a reply to GetEndpoints gives.
pub(crate) fn choose_by(called: Result<Reply, QuestionFault>) -> Result<UaString, QuestionFault>
    ensures { ChoosesBy called result }
{
    let response = match response_of(called) {
        Ok(response) => response,
        Err(fault) => return Err(fault),
    };
    let chosen = choose_in(&response);
    drop(response);
    chosen
}

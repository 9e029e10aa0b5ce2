//! Responses that a command prints.

ghost use Rattle.std.specs.Prelude.{◌≡◌, [], IfErr, OnOk};
ghost use Rattle.std.specs.Io.KnownBytes.{Appends};
ghost use Rattle.ua_session.specs.Printed.{IsOutput};
ghost use Rattle.ua_session.specs.Replies.{Expects, GivesResponse, PrintsEndpoints, has_failed, is_bad_response};

use crate::fault::QuestionFault;
use std::alloc::Global;
use std::io;
use std::io::Write;
use ua_answers::{EndpointStyle, has_bad_code, push_endpoints};
use ua_client::Reply;
use ua_services::Response;

/// The response that a reply is. A reply that the server aborted is a fault.
pub fn response_of(called: Result<Reply, QuestionFault>) -> Result<Response, QuestionFault>
    ensures { GivesResponse called result }
{
    match called {
        Ok(Reply::Response(response)) => Ok(response),
        Ok(Reply::Aborted(code)) => Err(QuestionFault::Service(code)),
        Err(fault) => Err(fault),
    }
}

/// Writes lines of text and flushes them, and leaves the writer alone where there are none.
pub fn write_lines<O: Write>(out: &mut O, lines: &str) -> io::Result<()>
    ensures written { OnOk result (Appends (O.contents out.old) (O.contents out.new) lines.now) }
    ensures none { lines.now ≡ [] → out.new ≡ out.old }
{
    if lines.is_empty() {
        return Ok(());
    }
    out.write_all(lines.as_bytes())?;
    out.flush()
}

/// The same, where a failure of the writer is a fault.
pub(crate) fn print_lines<O: Write>(out: &mut O, lines: &str) -> Result<(), QuestionFault>
    ensures written { OnOk result (Appends (O.contents out.old) (O.contents out.new) lines.now) }
    ensures failed { IfErr result IsOutput }
{
    match write_lines(out, lines) {
        Ok(()) => Ok(()),
        Err(error) => Err(QuestionFault::Output(error)),
    }
}

/// Writes the lines of the endpoints in a reply, in this style, and flushes them: all or none,
/// unless the writer fails.
pub(crate) fn print_endpoints<O: Write>(
    alloc: Global,
    out: &mut O,
    called: Result<Reply, QuestionFault>,
    style: EndpointStyle,
) -> Result<(), QuestionFault>
    ensures { PrintsEndpoints O.contents style out.old out.new called result }
{
    let response = response_of(called)?;
    let mut lines = String::new(alloc);
    let pushed = push_endpoints(alloc, &mut lines, &response, style);
    drop(response);
    pushed?;
    print_lines(out, &lines)
}

/// Whether the response to a Read or a Write has a bad code: its own ServiceResult, or that of a
/// result.
pub fn is_bad_response(response: &Response) -> bool
    ensures { result ≡ is_bad_response response.now }
{
    has_bad_code(response) || has_failed(response)
}

/// Whether the ServiceResult of a response to a Read or a Write is bad.
fn has_failed(response: &Response) -> bool
    ensures { result ≡ has_failed response.now }
{
    match response {
        Response::Read(message) => message.response_header.service_result.is_bad(),
        Response::Write(message) => message.response_header.service_result.is_bad(),
        _ => false,
    }
}

/// Whether a reply shows that the service succeeded.
pub fn expect_done(called: Result<Reply, QuestionFault>) -> Result<(), QuestionFault>
    ensures { Expects called result }
{
    let response = response_of(called)?;
    let failure = match &response {
        Response::ServiceFault(fault) => Some(fault.response_header.service_result),
        _ => None,
    };
    drop(response);
    match failure {
        Some(code) => Err(QuestionFault::Service(code)),
        None => Ok(()),
    }
}

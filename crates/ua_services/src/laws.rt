//! Laws of message bodies, each carried by a function without a body.

ghost use Rattle.ua_opening.specs.Laws.{BodyReadsBack, OneMessage};
ghost use Rattle.ua_services.specs.Request.{request};
ghost use Rattle.ua_services.specs.Response.{response};

/// Decoding the canonical body of a request gives back that request.
pub fn requests_read_back()
    ensures { BodyReadsBack request }
{}

/// Decoding the canonical body of a response gives back that response.
pub fn responses_read_back()
    ensures { BodyReadsBack response }
{}

/// No body encodes two responses.
pub fn bodies_of_responses_differ()
    ensures { OneMessage response }
{}

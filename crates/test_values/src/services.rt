//! `ua_services`.

ghost use Rattle.std.specs.Prelude.{◌≤◌, length, IfOk};
ghost use Rattle.std.specs.List.{concat};

use crate::cases::{check, octets, value, writes};
use crate::messages::{REQUESTS, RESPONSES};
use bytes::Bytes;
use std::alloc::{AllocError, Global};
use std::process::Abort;
use std::test::Fail;
use ua_builtin::{DateTime, ExtensionObject, NodeId, Octets, Parts, Source, UaString};
use ua_nodes::NodeTable;
use ua_services::session_requests::{
    activate_session_request, close_session_request, create_session_request, get_endpoints_request,
    local_url, read_item, read_request as read_of, write_item, write_request as write_of,
};
use ua_services::{
    CloseRequest, OpenAnswer, OpenRequest, OpenResponse, Request, RequestFault, RequestKind,
    Response, ResponseFault, ResponseKind, WriteRequest, read_identity, read_open_request,
    read_open_response, read_request, read_request_kind, read_response, read_write_request_for,
    request_body, response_body, skip_request, skip_response, write_close_request, write_identity,
    write_open_request, write_open_response,
};

/// A CloseSession at 1970-01-01 with the handle 9, under the token `ns=2;i=1`.
const CLOSE: &str =
    "0100D901 01020100 00803ED5DEB19D01 09000000 00000000 FFFFFFFF 00000000 000000 00";

/// 1970-01-01.
const MOMENT: DateTime = DateTime {
    ticks: 116_444_736_000_000_000,
};

/// What a body is as a request, decoded and passed over.
fn as_request(rt: &(impl Abort + AllocGlobal), words: &str) -> Result<AsRequest, Fail> {
    let octets = octets(rt.alloc(), words)?;
    let answer = match read_request(rt.alloc(), &mut Octets::new(octets.as_slice())) {
        Ok(request) => Ok(request.kind()),
        Err(fault) => Err(fault),
    };
    let skipped = skip_request(rt.alloc(), &mut Octets::new(octets.as_slice()));
    assert_eq!(rt; answer, skipped, "{words}");
    Ok(answer)
}

type AsRequest = Result<RequestKind, RequestFault>;

#[test]
fn tells_requests_by_their_bodies(rt: HostRuntime) -> Result<(), Fail> {
    let alloc = rt.alloc();
    let tail = "01020100 00803ED5DEB19D01 09000000 00000000 FFFFFFFF 00000000 000000";
    let cases: [(&str, &str, &str, AsRequest); 8] = [
        ("0100D901", tail, "00", Ok(RequestKind::CloseSession)),
        ("0100D901", tail, "05", Ok(RequestKind::CloseSession)),
        ("0100D901", tail, "00 00", Err(RequestFault::Unreadable(9))),
        ("0100D901", tail, "", Err(RequestFault::Unreadable(9))),
        ("", "", "", Err(RequestFault::Unreadable(0))),
        ("0100D901", "", "", Err(RequestFault::Unreadable(0))),
        ("0048", "", "", Err(RequestFault::Unsupported(0))),
        ("0100BE01", tail, "00", Err(RequestFault::Unsupported(9))),
    ];
    for (id, header, rest, expected) in cases {
        let words = format!(in alloc; "{id} {header} {rest}")?;
        assert_eq!(rt; as_request(&rt, words.as_str())?, expected, "{words}");
    }
    let words = format!(in alloc; "0100D901 {tail} 05")?;
    let truth = format!(in alloc; "0100D901 {tail} 01")?;
    check::<Request>(&rt, words.as_str(), truth.as_str())
}

#[test]
fn keeps_every_field_of_each_request(rt: HostRuntime) -> Result<(), Fail> {
    for words in REQUESTS {
        check::<Request>(&rt, words, "same")?;
        assert!(rt; as_request(&rt, words)?.is_ok());
    }
    Ok(())
}

/// What a body is as a response, decoded and passed over.
fn as_response(
    rt: &(impl Abort + AllocGlobal),
    words: &str,
) -> Result<Result<ResponseKind, ResponseFault>, Fail> {
    let octets = octets(rt.alloc(), words)?;
    let answer = match read_response(rt.alloc(), &mut Octets::new(octets.as_slice())) {
        Ok(response) => Ok(response.kind()),
        Err(fault) => Err(fault),
    };
    let skipped = skip_response(rt.alloc(), &mut Octets::new(octets.as_slice()));
    assert_eq!(rt; answer, skipped, "{words}");
    Ok(answer)
}

#[test]
fn keeps_every_field_of_each_response(rt: HostRuntime) -> Result<(), Fail> {
    for words in RESPONSES {
        check::<Response>(&rt, words, "same")?;
        assert!(rt; as_response(&rt, words)?.is_ok());
    }
    Ok(())
}

#[test]
fn tells_responses_by_their_bodies(rt: HostRuntime) -> Result<(), Fail> {
    let cases = [
        (
            "01008D01 00803ED5DEB19D01 09000000 00000B80 00 FFFFFFFF 000000",
            Ok(ResponseKind::ServiceFault),
        ),
        (
            "0100DC01 00803ED5DEB19D01 09000000 00000000 00 FFFFFFFF 000000",
            Ok(ResponseKind::CloseSession),
        ),
        (
            "0100DC01 00803ED5DEB19D01 09000000 00000000 00 FFFFFFFF 0000",
            Err(ResponseFault::Unreadable),
        ),
        ("0048", Err(ResponseFault::Unknown)),
        (CLOSE, Err(ResponseFault::Unknown)),
    ];
    for (words, expected) in cases {
        assert_eq!(rt; as_response(&rt, words)?, expected, "{words}");
    }
    let fault = value::<Response>(rt.alloc(), cases[0].0)?;
    assert!(rt; fault.answers(RequestKind::Read) && fault.header().request_handle == 9);
    let body = response_body(rt.alloc(), fault)?;
    assert_eq!(rt; body.as_slice(), octets(rt.alloc(), cases[0].0)?.as_slice());
    Ok(())
}

/// Asserts the body of a request.
fn asks(rt: &(impl Abort + AllocGlobal), request: Request, words: &str) -> Result<(), Fail> {
    let body = request_body(rt.alloc(), request)?;
    assert_eq!(rt; body.as_slice(), octets(rt.alloc(), words)?.as_slice());
    Ok(())
}

#[test]
fn makes_the_requests_that_begin_and_end_a_session(rt: HostRuntime) -> Result<(), Fail> {
    let alloc = rt.alloc();
    let words = "0100AC01 0000 00803ED5DEB19D01 02000000 00000000 FFFFFFFF 00000000 000000 \
        18000000 6F70632E7463703A2F2F6C6F63616C686F73743A34383430 FFFFFFFF FFFFFFFF";
    asks(
        &rt,
        get_endpoints_request(local_url(alloc, 4840)?, MOMENT, 2),
        words,
    )?;
    let words = "0100CD01 0000 00803ED5DEB19D01 02000000 00000000 FFFFFFFF 00000000 000000 \
        0D000000 75726E3A75613A636C69656E74 FFFFFFFF 02020000007561 01000000 FFFFFFFF FFFFFFFF \
        FFFFFFFF FFFFFFFF 18000000 6F70632E7463703A2F2F6C6F63616C686F73743A34383430 \
        020000007561 FFFFFFFF FFFFFFFF 00000000004CFD40 00000000";
    let request = create_session_request(alloc, local_url(alloc, 4840)?, MOMENT, 2)?;
    asks(&rt, request, words)?;
    let words = "0100D301 01020100 00803ED5DEB19D01 03000000 00000000 FFFFFFFF 00000000 000000 \
        FFFFFFFF FFFFFFFF FFFFFFFF FFFFFFFF 01004101 01 0D000000 09000000 616E6F6E796D6F7573 \
        FFFFFFFF FFFFFFFF";
    let token = NodeId::parse_text(alloc, "ns=2;i=1")?;
    asks(
        &rt,
        activate_session_request(alloc, token, MOMENT, 3)?,
        words,
    )?;
    let token = NodeId::parse_text(alloc, "ns=2;i=1")?;
    asks(&rt, close_session_request(token, MOMENT, 9), CLOSE)
}

#[test]
fn makes_reads_and_writes(rt: HostRuntime) -> Result<(), Fail> {
    let alloc = rt.alloc();
    let words = "01007702 01020100 00803ED5DEB19D01 05000000 00000000 FFFFFFFF 00000000 000000 \
        0000000000000000 02000000 01000000 03010004000000 50756D70 0D000000 03000000 313A39 \
        0000 FFFFFFFF";
    let mut items = Vec::new(alloc);
    let range = UaString::from_str(alloc, "1:9")?;
    items.push(read_item(NodeId::parse_text(alloc, "ns=1;s=Pump")?, range))?;
    let token = NodeId::parse_text(alloc, "ns=2;i=1")?;
    asks(&rt, read_of(token, MOMENT, 5, items), words)?;
    let words = "0100A102 01020100 00803ED5DEB19D01 04000000 00000000 FFFFFFFF 00000000 000000 \
        01000000 03010004000000 50756D70 0D000000 FFFFFFFF 01 0606000000";
    let mut items = Vec::new(alloc);
    items.push(write_item(
        NodeId::parse_text(alloc, "ns=1;s=Pump")?,
        value(alloc, "0606000000")?,
    ))?;
    let token = NodeId::parse_text(alloc, "ns=2;i=1")?;
    asks(&rt, write_of(token, MOMENT, 4, items), words)
}

#[test]
fn reads_a_write_for_the_nodes_of_a_table(rt: HostRuntime) -> Result<(), Fail> {
    let alloc = rt.alloc();
    let table = NodeTable::load(alloc, "ns=1;s=Pump\trw\tPump\tInt32\t5\n")?;
    let words = "0100A102 01020100 00803ED5DEB19D01 04000000 00000000 FFFFFFFF 00000000 000000 \
        01000000 03010004000000 50756D70 0D000000 FFFFFFFF 01 0606000000";
    let octets = octets(alloc, words)?;
    let mut src = Octets::new(octets.as_slice());
    assert_eq!(rt; read_request_kind(alloc, &mut src), Ok(RequestKind::Write));
    let mut request = WriteRequest::empty();
    read_write_request_for(alloc, &mut src, &table, &mut request)?;
    asks(&rt, Request::Write(request), words)
}

#[test]
fn reads_and_writes_messages_of_the_channel(rt: HostRuntime) -> Result<(), Fail> {
    let alloc = rt.alloc();
    let body = octets(
        alloc,
        "0100BE01 0000 00803ED5DEB19D01 00000000 00000000 FFFFFFFF 00000000 000000 \
        00000000 00000000 01000000 FFFFFFFF 80EE3600",
    )?;
    let request: OpenRequest = read_open_request(alloc, &mut Octets::new(body.as_slice()))?;
    let mut out = Vec::new(alloc);
    write_open_request(&request, &mut out)?;
    assert_eq!(rt; out.as_slice(), body.as_slice());
    let body = octets(
        alloc,
        "0100C101 00803ED5DEB19D01 00000000 00000000 00 FFFFFFFF 000000 \
        00000000 07000000 01000000 00803ED5DEB19D01 80EE3600 FFFFFFFF",
    )?;
    let response = opened(read_open_response(alloc, &mut Octets::new(body.as_slice()))?)?;
    let mut out = Vec::new(alloc);
    write_open_response(&response, &mut out)?;
    assert_eq!(rt; out.as_slice(), body.as_slice());
    let header = "0000 00803ED5DEB19D01 00000000 00000000 FFFFFFFF 00000000 000000";
    let request = value::<CloseRequest>(alloc, header)?;
    let mut out = Vec::new(alloc);
    write_close_request(&request, &mut out)?;
    let body = octets(alloc, format!(in alloc; "0100C401 {header}")?.as_str())?;
    assert_eq!(rt; out.as_slice(), body.as_slice());
    Ok(())
}

fn opened(answer: OpenAnswer) -> Result<OpenResponse, Fail> {
    match answer {
        OpenAnswer::Open(response) => Ok(response),
        OpenAnswer::Fault(_) => Err(Fail::new("a fault")),
    }
}

#[test]
fn keeps_an_anonymous_identity(rt: HostRuntime) -> Result<(), Fail> {
    let alloc = rt.alloc();
    let words = "01004101 01 0D000000 09000000 616E6F6E796D6F7573";
    let object = value::<ExtensionObject>(alloc, words)?;
    let token = read_identity(alloc, &object)?;
    assert_eq!(rt; token.policy_id.as_str().ok_or("null")?, "anonymous");
    writes(&rt, &write_identity(alloc, &token)?, words)?;
    for words in [
        "01004101 00",
        "01004201 01 04000000 FFFFFFFF",
        "01004101 01 00000000",
    ] {
        let object = value::<ExtensionObject>(alloc, words)?;
        assert!(rt; read_identity(alloc, &object).is_err(), "{words}");
    }
    Ok(())
}

/// The body in parts of one byte.
fn single_octets(alloc: Global, body: &Bytes) -> Result<Vec<Bytes>, AllocError>
    ensures { IfOk result (λ parts. length (concat parts.items) ≤ length body.now) }
{
    let mut parts = Vec::new(alloc);
    for i in 0..body.len() {
        parts.push(body.slice(i..i + 1)?)?;
    }
    Ok(parts)
}

#[test]
fn reads_a_request_in_parts_of_one_octet(rt: HostRuntime) -> Result<(), Fail> {
    let alloc = rt.alloc();
    let body = Bytes::copy_from_slice(alloc, octets(alloc, CLOSE)?.as_slice())?;
    let parts = single_octets(alloc, &body)?;
    let mut src = Parts::new(parts.as_slice());
    assert_eq!(rt; src.left(), 36);
    let request = read_request(alloc, &mut src)?;
    assert_eq!(rt; src.left(), 0);
    asks(&rt, request, CLOSE)
}

//! `ua_answers` over whole responses and scripts. Lines and texts of single values are rows of
//! `test_rows`.

use crate::cases::{page, value, writes};
use std::alloc::Global;
use std::test::Fail;
use ua_answers::{
    AnswerFault, EndpointStyle, LineStyle, ScriptFault, Step, exact_lines, has_bad_code,
    parse_script, push_endpoints, push_read_answers, push_write_answers,
};
use ua_builtin::{NodeId, StatusCode};
use ua_services::Response;

/// `ns=1;s=Pump` and `i=9999`.
fn nodes(alloc: Global) -> Result<Vec<NodeId>, Fail> {
    let mut nodes = Vec::new(alloc);
    nodes.push(NodeId::parse_text(alloc, "ns=1;s=Pump")?)?;
    nodes.push(NodeId::parse_text(alloc, "i=9999")?)?;
    Ok(nodes)
}

/// The response of this NodeId with these fields, and no results of diagnostics.
fn response(alloc: Global, id: &str, code: &str, rest: &str) -> Result<Response, Fail> {
    let header = "00803ED5DEB19D01 04000000";
    let words = format!(in alloc; "{id} {header} {code} 00 FFFFFFFF 000000 {rest}")?;
    value(alloc, words.as_str())
}

#[test]
fn prints_the_answers_to_a_read(rt: HostRuntime) -> Result<(), Fail> {
    let alloc = rt.alloc();
    let times = "00803ED5DEB19D01 00803ED5DEB19D01";
    let values = format!(in alloc; "02000000 0D 0607000000 {times} 02 00003480 FFFFFFFF")?;
    let answers = response(alloc, "01007A02", "00000000", values.as_str())?;
    let style = LineStyle::plain(false);
    let mut out = page(alloc);
    push_read_answers(alloc, &mut out, nodes(alloc)?.as_slice(), &answers, style)?;
    assert_eq!(rt;
        out.as_str(),
        "ns=1;s=Pump 00000000 Int32 7\ni=9999 80340000\n"
    );
    assert!(rt; has_bad_code(&answers));
    let few = response(alloc, "01007A02", "00000000", "01000000 00 FFFFFFFF")?;
    let mut out = page(alloc);
    let answer = push_read_answers(alloc, &mut out, nodes(alloc)?.as_slice(), &few, style);
    assert_eq!(rt; answer, Err(AnswerFault::Unknown));
    Ok(())
}

#[test]
fn prints_the_answers_to_a_write(rt: HostRuntime) -> Result<(), Fail> {
    let alloc = rt.alloc();
    let codes = "02000000 00000000 00003480 FFFFFFFF";
    let answers = response(alloc, "0100A402", "00000000", codes)?;
    let style = LineStyle::plain(false);
    let mut out = page(alloc);
    push_write_answers(alloc, &mut out, nodes(alloc)?.as_slice(), &answers, style)?;
    assert_eq!(rt; out.as_str(), "ns=1;s=Pump 00000000\ni=9999 80340000\n");
    let fault = response(alloc, "01008D01", "00002780", "")?;
    let mut out = page(alloc);
    let answer = push_write_answers(alloc, &mut out, nodes(alloc)?.as_slice(), &fault, style);
    let code = StatusCode { code: 0x8027_0000 };
    assert_eq!(rt; answer, Err(AnswerFault::Service(code)));
    Ok(())
}

#[test]
fn prints_endpoints(rt: HostRuntime) -> Result<(), Fail> {
    let alloc = rt.alloc();
    let endpoint = "01000000 01000000 75 FFFFFFFF FFFFFFFF 00 00000000 FFFFFFFF FFFFFFFF \
        FFFFFFFF FFFFFFFF 01000000 02000000 705C FFFFFFFF FFFFFFFF 00";
    let answer = response(alloc, "0100AF01", "00000000", endpoint)?;
    let mut out = page(alloc);
    push_endpoints(alloc, &mut out, &answer, EndpointStyle::plain())?;
    assert_eq!(rt; out.as_str(), "u 1 p\\\\\n");
    Ok(())
}

#[test]
fn parses_scripts(rt: HostRuntime) -> Result<(), Fail> {
    let alloc = rt.alloc();
    let text = "\nrenew\r\n#\nread\ti=1\t1:2\nwrite\ti=72\tInt32[]\t6,7\n";
    let steps = parse_script(alloc, text)?;
    assert_eq!(rt; steps.len(), 3);
    for line in &steps {
        match &line.step {
            Step::Renew => assert_eq!(rt; line.number, 2),
            Step::Read { range, .. } => writes(&rt, range, "03000000 313A32")?,
            Step::Write { value, .. } => {
                writes(&rt, value, "86 02000000 06000000 07000000")?;
            }
        }
    }
    for (text, line) in [
        ("read", 1),
        ("renew\nread\tx\nread", 2),
        ("write\ti=1\t\t1", 1),
    ] {
        match parse_script(alloc, text) {
            Ok(_) => return Err(Fail::new("steps")),
            Err(fault) => assert_eq!(rt; fault, ScriptFault::Line(line), "{text}"),
        }
    }
    Ok(())
}

#[test]
fn writes_decimals_of_a_node_file_exactly(rt: HostRuntime) -> Result<(), Fail> {
    let exact = exact_lines(rt.alloc(), "i=1\tr\tLevel\tFloat\t-6.5")?;
    assert_eq!(rt; exact.as_str(), "i=1\tr\tLevel\tFloat\t0xc0d00000\n");
    Ok(())
}

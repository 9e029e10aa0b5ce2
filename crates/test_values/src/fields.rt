//! `ua_fields`.

use crate::cases::{octets, page};
use std::test::Fail;
use ua_builtin::Octets;
use ua_fields::{BodyKind, push_body_fields};

/// Bodies of each kind, whether StatusCodes have their names, and the lines of their fields.
const CASES: [(BodyKind, bool, &str, &str); 3] = [
    (
        BodyKind::Response,
        true,
        "01007A02 00803ED5DEB19D01 05000000 00000000 00 FFFFFFFF 000000 01000000 02 00003480 \
        FFFFFFFF",
        "    response_header.timestamp 116444736000000000\n\
        \x20   response_header.request_handle 5\n\
        \x20   response_header.service_result 00000000 Good\n\
        \x20   response_header.service_diagnostics null\n\
        \x20   response_header.string_table null\n\
        \x20   response_header.additional_header null\n\
        \x20 results 1\n\
        \x20   results[0].value null\n\
        \x20   results[0].status 80340000 BadNodeIdUnknown\n\
        \x20   results[0].source_timestamp null\n\
        \x20   results[0].source_picoseconds null\n\
        \x20   results[0].server_timestamp null\n\
        \x20   results[0].server_picoseconds null\n\
        \x20 diagnostic_infos null\n",
    ),
    (
        BodyKind::OpenRequest,
        false,
        "0100BE01 03020005000000746F6B656E 0177665544332211 A1000000 A2000000 050000006175646974 \
        A3000000 01002C010102000000ABCD C1000000 01000000 FDFFFFFF 020000000A0B C2000000",
        "    request_header.authentication_token ns=2;s=token\n\
        \x20   request_header.timestamp 1234605616436508417\n\
        \x20   request_header.request_handle 161\n\
        \x20   request_header.return_diagnostics 162\n\
        \x20   request_header.audit_entry_id audit\n\
        \x20   request_header.timeout_hint 163\n\
        \x20   request_header.additional_header 0x01002c010102000000abcd\n\
        \x20 client_protocol_version 193\n\
        \x20 request_type 1\n\
        \x20 security_mode -3\n\
        \x20 client_nonce Cgs=\n\
        \x20 requested_lifetime 194\n",
    ),
    (BodyKind::CloseRequest, false, "0100C401", ""),
];

#[test]
fn tells_the_fields_of_each_kind_of_body(rt: HostRuntime) -> Result<(), Fail> {
    for (kind, names, words, expected) in CASES {
        let octets = octets(rt.alloc(), words)?;
        let mut out = page(rt.alloc());
        let mut src = Octets::new(octets.as_slice());
        push_body_fields(rt.alloc(), kind, names, &mut src, &mut out)?;
        assert_eq!(rt; out.as_str(), expected, "{words}");
    }
    Ok(())
}

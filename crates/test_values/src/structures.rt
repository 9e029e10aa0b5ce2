//! `ua_opening` and `ua_structures`.

use crate::cases::{check, octets, value, writes};
use std::test::Fail;
use ua_builtin::{DateTime, NodeId, Octets, Source, StatusCode, UaBytes, UaString};
use ua_structures::{
    EndpointDescription, ReadRequest, ReadResponse, ReadValueId, RequestHeader,
    SignedSoftwareCertificate, UaArray, UserTokenPolicy, WriteRequest, WriteValue, read_array,
};
use ua_variant::{DataValue, DiagnosticInfo};

#[test]
fn tells_a_null_array_from_an_empty_one(rt: HostRuntime) -> Result<(), Fail> {
    let cases = [
        ("02000000 00000000 00003380", "same"),
        ("00000000", "same"),
        ("FFFFFFFF", "same"),
        ("00000080", "FFFFFFFF"),
        ("FFFFFF7F", "none"),
        ("01000000 000000", "none"),
    ];
    for (words, expected) in cases {
        check::<UaArray<StatusCode>>(&rt, words, expected)?;
    }
    assert!(rt;
        value::<UaArray<u8>>(rt.alloc(), "FFFFFFFF")?
            .as_items()
            .is_none()
    );
    let octets = value::<UaArray<u8>>(rt.alloc(), "02000000 0102")?
        .into_items()
        .ok_or("null")?;
    assert_eq!(rt; octets.as_slice(), [1, 2].as_slice());
    Ok(())
}

#[test]
fn keeps_three_hundred_values(rt: HostRuntime) -> Result<(), Fail> {
    check::<UaArray<UaString>>(&rt, "2C010000 300*0100000041", "same")?;
    check::<UaArray<UaBytes>>(&rt, "2C010000 300*02000000ABCD", "same")?;
    check::<UaArray<DataValue>>(&rt, "2C010000 300*010507FF", "same")?;
    check::<UaArray<DiagnosticInfo>>(&rt, "2C010000 300*0107000000", "same")?;
    let item = "2C010000 300*010507000D000000FFFFFFFF0000FFFFFFFF";
    check::<UaArray<ReadValueId>>(&rt, item, "same")?;
    let item = "2C010000 300*010507000D000000FFFFFFFF01050700";
    check::<UaArray<WriteValue>>(&rt, item, "same")?;
    let certificate = "2C010000 300*020000000700FFFFFFFF";
    check::<UaArray<SignedSoftwareCertificate>>(&rt, certificate, "same")?;
    let policy = "2C010000 300*FFFFFFFF07000000FFFFFFFFFFFFFFFFFFFFFFFF";
    check::<UaArray<UserTokenPolicy>>(&rt, policy, "same")?;
    let endpoint = "2C010000 300*FFFFFFFFFFFFFFFFFFFFFFFF0007000000FFFFFFFFFFFFFFFFFFFFFFFF\
        FFFFFFFF01000000FFFFFFFFFFFFFFFFFFFFFFFF07";
    check::<UaArray<EndpointDescription>>(&rt, endpoint, "same")
}

#[test]
fn reads_arrays_from_a_source(rt: HostRuntime) -> Result<(), Fail> {
    let octets = octets(rt.alloc(), "02000000 0100 0200 FF")?;
    let mut src = Octets::new(octets.as_slice());
    let items = read_array::<u16, _>(rt.alloc(), &mut src, 100)?.ok_or("null")?;
    assert_eq!(rt; items.as_slice(), [1, 2].as_slice());
    assert_eq!(rt; src.left(), 1);
    Ok(())
}

/// A RequestHeader at 1970-01-01 with the handle 9, under the token `ns=2;i=1`.
const HEADER: &str = "01020100 00803ED5DEB19D01 09000000 00000000 FFFFFFFF 00000000 000000";

#[test]
fn reads_into_what_is_there(rt: HostRuntime) -> Result<(), Fail> {
    let alloc = rt.alloc();
    let item = "0000000000000000 02000000 01000000 0048 0D000000 FFFFFFFF 0000 FFFFFFFF";
    let words = format!(in alloc; "{HEADER} {item}")?;
    let body = octets(alloc, words.as_str())?;
    let mut request = ReadRequest::empty();
    request.read_into(alloc, &mut Octets::new(body.as_slice()), 100)?;
    writes(&rt, &request, words.as_str())?;
    let words = "00803ED5DEB19D01 09000000 00000000 00 FFFFFFFF 000000 01000000 01050700 FFFFFFFF";
    let body = octets(alloc, words)?;
    let mut response = ReadResponse::empty();
    response.read_into(alloc, &mut Octets::new(body.as_slice()), 100)?;
    writes(&rt, &response, words)
}

#[test]
fn makes_requests_of_one_item(rt: HostRuntime) -> Result<(), Fail> {
    let alloc = rt.alloc();
    let node = || NodeId::parse_text(alloc, "ns=1;s=Pump");
    let header = RequestHeader::new(NodeId::parse_text(alloc, "ns=2;i=1")?, MOMENT, 9);
    let item = ReadValueId::new(node()?);
    let request = ReadRequest::with_item(alloc, header, item)?;
    let tail = "0000000000000000 02000000 01000000 03010004000000 50756D70 0D000000 FFFFFFFF \
        0000 FFFFFFFF";
    writes(
        &rt,
        &request,
        format!(in alloc; "{HEADER} {tail}")?.as_str(),
    )?;
    let header = RequestHeader::new(NodeId::parse_text(alloc, "ns=2;i=1")?, MOMENT, 9);
    let item = WriteValue::new(node()?, value(alloc, "01 0606000000")?);
    let request = WriteRequest::with_item(alloc, header, item)?;
    let tail = "01000000 03010004000000 50756D70 0D000000 FFFFFFFF 01 0606000000";
    writes(
        &rt,
        &request,
        format!(in alloc; "{HEADER} {tail}")?.as_str(),
    )
}

/// 1970-01-01.
const MOMENT: DateTime = DateTime {
    ticks: 116_444_736_000_000_000,
};

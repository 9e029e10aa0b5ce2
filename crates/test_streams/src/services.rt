//! What a server answers to requests, and what it says on a connection.

use crate::vectors::{MOMENT, Vectors, row_of, url};
use std::alloc::Global;
use std::test::Fail;
use ua_builtin::{Octets, UaString, Wire};
use ua_nodes::NodeTable;
use ua_server::{Endpoint, Services};
use ua_services::{Request, read_request, response_body};

/// Messages to one server, in this order, and the bodies of its replies.
const ANSWERS: &str = "\
0100AC01 0000 $AT 02000000 $ASKING FFFFFFFF FFFFFFFF FFFFFFFF = 0100AF01 $AT 02000000 $GOOD 01000000 $ENDPOINT
0100AC01 0000 $AT 02000000 $ASKING FFFFFFFF FFFFFFFF 01000000 01000000 'x = 0100AF01 $AT 02000000 $GOOD 00000000
0100AC01 0000 $AT 02000000 $ASKING FFFFFFFF FFFFFFFF 02000000 01000000 'x $PROFILE = 0100AF01 $AT 02000000 $GOOD \
01000000 $ENDPOINT
01000F02 0000 $AT 09000000 $ASKING = $FAULT 09000000 00000B80 $ANSWERING
01007702 = $FAULT 00000000 00000780 $ANSWERING
07 = $FAULT 00000000 00000780 $ANSWERING
$READING = $FAULT 05000000 00002580 $ANSWERING
$CREATION = $CREATED_1
$CREATION = $FAULT 02000000 00005680 $ANSWERING
$READING = $FAULT 05000000 00002780 $ANSWERING
0100D301 01020200 $AT 03000000 $ASKING $SIGNED 000000 FFFFFFFF FFFFFFFF = $FAULT 03000000 00002580 $ANSWERING
0100D301 $TOKEN $AT 03000000 $ASKING $SIGNED 000001 FFFFFFFF FFFFFFFF FFFFFFFF = $FAULT 03000000 00002180 $ANSWERING
$ACTIVATION = $ACTIVATED_1
0100A102 $TOKEN $AT 04000000 $ASKING 02000000 $PUT 06000000 $PUT 07000000 = 0100A402 $AT 04000000 $GOOD \
02000000 00000000 00000000 FFFFFFFF
$READ_ANY 02000000 $ITEM 01000F27 0D000000 FFFFFFFF 0000 FFFFFFFF = 01007A02 $AT 05000000 $GOOD \
02000000 0D 06 07000000 $AT $AT 02 00003480 FFFFFFFF
01007702 $TOKEN $AT 05000000 $ASKING 0000000000000000 04000000 00000000 = $FAULT 05000000 00002B80 $ANSWERING
01007702 $TOKEN $AT 05000000 $ASKING 0000000000000080 03000000 01000000 $ITEM = 01007A02 $AT 05000000 $GOOD \
01000000 01 06 07000000 FFFFFFFF
01007702 $TOKEN $AT 05000000 $ASKING 0100000000000080 02000000 01000000 $ITEM = $FAULT 05000000 00007080 $ANSWERING
$READ_ANY 00000000 = $FAULT 05000000 00000F80 $ANSWERING
$READ_ANY E9030000 1001*$ITEM = $FAULT 05000000 00001080 $ANSWERING
$READ_ANY E8030000 1000*$ITEM = 01007A02 $AT 05000000 $GOOD E8030000 1000*$SEVEN FFFFFFFF
$WRITING = $WRITTEN_1
$CLOSING = $CLOSED_1
$CLOSING = $FAULT 06000000 00002580 $ANSWERING
$CREATION = 0100D001 $AT 02000000 $GOOD 01010200 01020200 $SESSION
";

/// A node with the value 5, as a line of a node file.
pub const PUMP: &str = "ns=1;s=Pump\trw\tPump\tInt32\t5\n";

/// The services of the program over nodes.
pub fn services_over(alloc: Global, nodes: &str) -> Result<Services, Fail> {
    let nodes = NodeTable::load(alloc, nodes)?;
    let application_uri = UaString::from_str(alloc, "urn:ua:server")?;
    let name = UaString::from_str(alloc, "ua")?;
    if !application_uri.is_encodable() || !name.is_encodable() {
        return Err(Fail::from("no endpoint"));
    }
    let endpoint = Endpoint {
        url: url(alloc)?,
        application_uri,
        name,
        message_limit: 1_048_576,
    };
    Ok(Services::new(nodes, endpoint))
}

/// The body of the reply to a message.
pub fn reply(services: &mut Services, vectors: &Vectors, words: &str) -> Result<Vec<u8>, Fail> {
    let body = vectors.octets(words)?;
    Ok(services.reply(vectors.alloc(), &mut Octets::new(body.as_slice()), MOMENT)?)
}

/// The request that a body is.
pub fn request_in(alloc: Global, body: &[u8]) -> Result<Request, Fail> {
    Ok(read_request(alloc, &mut Octets::new(body))?)
}

#[test]
fn answers_messages(rt: HostRuntime) -> Result<(), Fail> {
    let vectors = Vectors::new(rt.alloc())?;
    let mut services = services_over(rt.alloc(), PUMP)?;
    for line in ANSWERS.lines() {
        let (message, answer) = row_of(line).ok_or("no row")?;
        let found = reply(&mut services, &vectors, message)?;
        assert_eq!(rt; found, vectors.octets(answer)?, "{line}");
    }
    services.begin();
    assert_eq!(rt;
        reply(&mut services, &vectors, "$READING")?,
        vectors.octets("$UNKNOWN")?
    );
    Ok(())
}

#[test]
fn answers_a_request(rt: HostRuntime) -> Result<(), Fail> {
    let vectors = Vectors::new(rt.alloc())?;
    let mut services = services_over(rt.alloc(), PUMP)?;
    let request = request_in(rt.alloc(), vectors.octets("$CREATION")?.as_slice())?;
    let response = services.answer(rt.alloc(), request, MOMENT)?;
    let body = response_body(rt.alloc(), response)?;
    assert_eq!(rt; body, vectors.octets("$CREATED_1")?);
    Ok(())
}

//! The bytes that tests name, and the one function that makes bytes of a row's words.

ghost use Rattle.std.specs.Prelude.{IfOk, IsTrue};
ghost use Rattle.ua_wire.specs.Counted.{text};

use hex;
use std::alloc::Global;
use std::test::Fail;
use ua_builtin::{DateTime, UaString, Wire};
use ua_frame::Limits;

/// 1970-01-01, the time of all that is sent.
pub const MOMENT: DateTime = DateTime {
    ticks: 116_444_736_000_000_000,
};

/// Named bytes, a line each: parts of messages, and the frames of a conversation on channel 1 in which a
/// client writes 6 to a node and reads it.
const NAMED: &str = "\
URL 18000000 'opc.tcp://localhost:4840
AT 00803ED5DEB19D01
POLICY 2F000000 'http://opcfoundation.org/UA/SecurityPolicy#None
NONE $POLICY FFFFFFFF FFFFFFFF
ASKING 00000000 FFFFFFFF 00000000 000000
ANSWERING 00 FFFFFFFF 000000
GOOD 00000000 $ANSWERING
FAULT 01008D01 $AT
UNKNOWN $FAULT 05000000 00002580 $ANSWERING
INACTIVE $FAULT 05000000 00002780 $ANSWERING
TOKEN 01020100
PUMP 03 0100 04000000 'Pump
VALUE $PUMP 0D000000 FFFFFFFF
ITEM $VALUE 0000 FFFFFFFF
PUT $VALUE 01 06
HEL 'HELF 38000000 00000000 FFFF0000 FFFF0000 00001000 00010000 $URL
HEL_FREE 'HELF 38000000 00000000 FFFF0000 FFFF0000 00000000 00000000 $URL
HEL_20 'HELF 38000000 00000000 FFFF0000 FFFF0000 14000000 00000000 $URL
HEL_8192 'HELF 38000000 00000000 00200000 FFFF0000 00000000 00000000 $URL
ISSUE 0100BE01 0000 $AT 00000000 $ASKING 00000000 00000000 01000000 FFFFFFFF 80EE3600
RENEW 0100BE01 0000 $AT 00000000 $ASKING 00000000 01000000 01000000 FFFFFFFF 80EE3600
OPN 'OPNF 84000000 00000000 $NONE 01000000 01000000 $ISSUE
CREATION 0100CD01 0000 $AT 02000000 $ASKING 0D000000 'urn:ua:client FFFFFFFF 02 02000000 'ua 01000000 \
FFFFFFFF FFFFFFFF FFFFFFFF FFFFFFFF $URL 02000000 'ua FFFFFFFF FFFFFFFF 00000000004CFD40 00000000
CREATE 'MSGF 9F000000 01000000 01000000 02000000 02000000 $CREATION
SIGNED FFFFFFFF FFFFFFFF FFFFFFFF FFFFFFFF
ANONYMOUS 01004101 01 0D000000 09000000 'anonymous FFFFFFFF FFFFFFFF
ACTIVATION 0100D301 $TOKEN $AT 03000000 $ASKING $SIGNED $ANONYMOUS
ACTIVATE 'MSGF 69000000 01000000 01000000 03000000 03000000 $ACTIVATION
WRITING 0100A102 $TOKEN $AT 04000000 $ASKING 01000000 $PUT 06000000
WRITE 'MSGF 58000000 01000000 01000000 04000000 04000000 $WRITING
READ_ANY 01007702 $TOKEN $AT 05000000 $ASKING 0000000000000000 02000000
READING $READ_ANY 01000000 $ITEM
READ 'MSGF 64000000 01000000 01000000 05000000 05000000 $READING
CLOSING 0100D901 $TOKEN $AT 06000000 $ASKING 00
CLOSE 'MSGF 3C000000 01000000 01000000 06000000 06000000 $CLOSING
CLOSE_3 'MSGF 3C000000 01000000 01000000 03000000 06000000 $CLOSING
LEAVING 0100C401 0000 $AT 00000000 $ASKING
CLO 'CLOF 39000000 01000000 01000000 07000000 07000000 $LEAVING
BEGIN $HEL $OPN $CREATE $ACTIVATE
UP $BEGIN $WRITE $READ $CLOSE $CLO
ACK 'ACKF 1C000000 00000000 FFFF0000 FFFF0000 00001000 00010000
OPENED 'OPNF 87000000 01000000 $NONE 01000000 01000000 \
0100C101 $AT 00000000 $GOOD 00000000 01000000 01000000 $AT 80EE3600 FFFFFFFF
POLICIES 01000000 09000000 'anonymous 00000000 FFFFFFFF FFFFFFFF FFFFFFFF
PROFILE 41000000 'http://opcfoundation.org/UA-Profile/Transport/uatcp-uasc-uabinary
ENDPOINT $URL 0D000000 'urn:ua:server FFFFFFFF 02 02000000 'ua 00000000 FFFFFFFF FFFFFFFF 01000000 $URL FFFFFFFF \
01000000 $POLICY $POLICIES $PROFILE 00
SESSION 00000000004CFD40 FFFFFFFF FFFFFFFF 01000000 $ENDPOINT FFFFFFFF FFFFFFFF FFFFFFFF 00001000
CREATED_1 0100D001 $AT 02000000 $GOOD 01010100 $TOKEN $SESSION
CREATED 'MSGF 66010000 01000000 01000000 02000000 02000000 $CREATED_1
ACTIVATED_1 0100D601 $AT 03000000 $GOOD FFFFFFFF FFFFFFFF FFFFFFFF
ACTIVATED 'MSGF 40000000 01000000 01000000 03000000 03000000 $ACTIVATED_1
WRITTEN_1 0100A402 $AT 04000000 $GOOD 01000000 00000000 FFFFFFFF
WRITTEN 'MSGF 40000000 01000000 01000000 04000000 04000000 $WRITTEN_1
SIX_1 01007A02 $AT 05000000 $GOOD 01000000 0D 06 06000000 $AT $AT FFFFFFFF
SIX 'MSGF 52000000 01000000 01000000 05000000 05000000 $SIX_1
CLOSED_1 0100DC01 $AT 06000000 $GOOD
CLOSED 'MSGF 34000000 01000000 01000000 06000000 06000000 $CLOSED_1
SEVEN 0D 06 07000000 $AT $AT
NO_READING $FAULT 05000000 00001080 $ANSWERING
DOWN $ACK $OPENED $CREATED $ACTIVATED $WRITTEN $SIX $CLOSED
RENEWAL 'OPNF 84000000 01000000 $NONE 05000000 05000000 $RENEW
READ_RENEWED 'MSGF 64000000 01000000 02000000 06000000 06000000 $READING
RENEWED 'OPNF 87000000 01000000 $NONE 05000000 05000000 \
0100C101 $AT 00000000 $GOOD 00000000 01000000 02000000 $AT 80EE3600 FFFFFFFF
SIX_RENEWED 'MSGF 52000000 01000000 02000000 06000000 06000000 $SIX_1
CLOSE_RENEWED 'MSGF 3C000000 01000000 02000000 07000000 07000000 $CLOSING
CLO_RENEWED 'CLOF 39000000 01000000 02000000 08000000 08000000 $LEAVING
CLOSED_RENEWED 'MSGF 34000000 01000000 02000000 07000000 07000000 $CLOSED_1
SIX_TO_WRITE 'MSGF 52000000 01000000 01000000 04000000 04000000 $SIX_1
ACK_8192 'ACKF 1C000000 00000000 FFFF0000 00200000 00001000 00010000
FIVE 09 06 05000000 $AT
FIVE_1 01007A02 $AT 05000000 $GOOD 01000000 $FIVE FFFFFFFF
OPENED_7 'OPNF 87000000 07000000 $NONE 01000000 01000000 \
0100C101 $AT 00000000 $GOOD 00000000 07000000 01000000 $AT 80EE3600 FFFFFFFF
OK $ACK $OPENED_7
OPEN $HEL_FREE $OPN
RENEWAL_7 'OPNF 84000000 07000000 $NONE 02000000 02000000 $RENEW
RENEWED_7 'OPNF 87000000 07000000 $NONE 02000000 02000000 \
0100C101 $AT 00000000 $GOOD 00000000 07000000 02000000 $AT 80EE3600 FFFFFFFF
";

/// Bytes that have a name.
#[derive(Drop)]
struct Named {
    name: String,
    octets: Vec<u8>,
}

/// The named bytes.
#[derive(Drop)]
pub struct Vectors {
    alloc: Global,
    named: Vec<Named>,
}

impl Vectors {
    pub fn new(alloc: Global) -> Result<Vectors, Fail> {
        let mut vectors = Vectors {
            alloc,
            named: Vec::new(alloc),
        };
        for line in NAMED.lines() {
            vectors.define(line)?;
        }
        Ok(vectors)
    }

    /// The allocator.
    pub fn alloc(&self) -> Global {
        self.alloc
    }

    /// Gives the bytes of the words after the first one that name.
    fn define(&mut self, line: &str) -> Result<(), Fail> {
        let (name, words) = line.split_once(' ').ok_or("no name")?;
        let octets = self.octets(words)?;
        let name = String::from_str(self.alloc, name)?;
        self.named.push(Named { name, octets })?;
        Ok(())
    }

    /// The bytes of words: hexadecimal digits, `'` and a text, `$` and a name, after which `[..N]` leaves
    /// the first N; after `N*` so many times.
    pub fn octets(&self, words: &str) -> Result<Vec<u8>, Fail> {
        let mut out = Vec::new(self.alloc);
        for word in words.split_whitespace() {
            let (times, unit) = times_of(word)?;
            for _ in 0..times {
                self.push(unit, &mut out)?;
            }
        }
        Ok(out)
    }

    fn push(&self, unit: &str, out: &mut Vec<u8>) -> Result<(), Fail> {
        if let Some(text) = unit.strip_prefix('\'') {
            out.extend_from_slice(text.as_bytes())?;
        } else if let Some(name) = unit.strip_prefix('$') {
            out.extend_from_slice(self.part(name)?)?;
        } else {
            out.extend_from_slice(hex::decode(self.alloc, unit)?.as_slice())?;
        }
        Ok(())
    }

    fn part(&self, word: &str) -> Result<&[u8], Fail> {
        match word.split_once("[..") {
            Some((name, len)) => {
                let len = len.trim_matches(']').parse::<usize>()?;
                Ok(self.find(name)?.get(..len).ok_or("too short")?)
            }
            None => self.find(word),
        }
    }

    fn find(&self, name: &str) -> Result<&[u8], Fail> {
        for entry in &self.named {
            if entry.name.as_str() == name {
                return Ok(entry.octets.as_slice());
            }
        }
        Err(Fail::from("no such name"))
    }
}

/// How often a word counts, and what stands after its `*`.
fn times_of(word: &str) -> Result<(usize, &str), Fail> {
    match word.split_once('*') {
        Some((times, unit)) => Ok((times.parse::<usize>()?, unit)),
        None => Ok((1, word)),
    }
}

/// A row's question and its answer; none in a line without ` = `.
pub fn row_of(line: &str) -> Option<(&str, &str)> {
    line.split_once(" = ")
}

/// The limits of the program at either end.
pub fn limits() -> Result<Limits, Fail> {
    Ok(Limits::new(65535, 65535, 1_048_576, 256).ok_or("no limits")?)
}

/// The URL of the server.
pub fn url(alloc: Global) -> Result<UaString, Fail>
    ensures { IfOk result (λ url. IsTrue (text.encodable url)) }
{
    let url = UaString::from_str(alloc, "opc.tcp://localhost:4840")?;
    if !url.is_encodable() {
        return Err(Fail::from("no URL"));
    }
    Ok(url)
}

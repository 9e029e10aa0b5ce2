//! The results of a Read, as views of the body of its response: their statuses and timestamps, and
//! where in the body their values are encoded.

ghost use Rattle.std.specs.Prelude.{◌≡◌, ◌⊎◌, ◌≤◌, ◌↔◌, Some, IfOk, IfErr, IsTrue, OnOk, MatchOption};
ghost use Rattle.ua_builtin.specs.Format.{Behind, most_levels};
ghost use Rattle.ua_builtin.specs.NodeId.{node_id};
ghost use Rattle.ua_opening.specs.Array.{array, items_at};
ghost use Rattle.ua_services.specs.Response.{response_kind};
ghost use Rattle.ua_services.specs.declared.response.ResponseKind.TheVariants.{Read as ReadKind};
ghost use Rattle.ua_structures.specs.Attribute.{read_response};
ghost use Rattle.ua_variant.specs.Formats.{data_value_format};
ghost use Rattle.ua_c.specs.Responses.{IsNoResponse, OfResponse, TellsNone};
ghost use Rattle.ua_c.specs.Views.{AnnouncesOther, AreResults, AreViews, AreViewsOf, HasNoResults, IsView};
ghost use Rattle.ua_c.specs.Views.{PutsReadings, SeesBy, Views, fields_size};
ghost use Rattle.ua_c.specs.Views.{if_there, reading_of, status_of_read_fault};

use crate::readings::UaReading;
use crate::responses::response_of;
use crate::status::{BAD_OCTETS, NO_MEMORY, OK, SERVICE, TOO_SMALL, UNKNOWN};
use std::alloc::Global;
use ua_builtin::{MOST_LEVELS, NodeId, Octets, ReadFault, Source, Wire};
use ua_opening::standard_number;
use ua_services::{Response, ResponseHeader, ResponseKind, UaArray, responses};
use ua_variant::{DataValue, DiagnosticInfo};
use ua_wire::FIRST_NEGATIVE;

/// The kind whose encoding has a number, if there is one.
macro_rules! numbered {
    ($all:ident $kinds:ident [$($kind:ident($held:ident) = $of:literal,)+] $number:expr) => {
        match $number {
            $($of => Some($kinds::$kind),)+
            _ => None,
        }
    };
}

impl UaReading {
    /// The reading of a DataValue, with a value whose encoding takes this many bytes from a place
    /// on.
    pub(crate) fn from_value(value: &DataValue, value_at: usize, value_len: usize) -> UaReading
        ensures { result ≡ reading_of value.now value_at value_len }
    {
        let mut reading = UaReading::nothing();
        if value.value.is_some() {
            reading.has_value = 1;
            reading.value_at = value_at;
            reading.value_len = value_len;
        }
        if let Some(status) = value.status {
            reading.has_status = 1;
            reading.status = status.code;
        }
        if let Some(time) = value.source_timestamp {
            reading.has_source_time = 1;
            reading.source_time = time.ticks;
        }
        if let Some(time) = value.server_timestamp {
            reading.has_server_time = 1;
            reading.server_time = time.ticks;
        }
        if let Some(picoseconds) = value.source_picoseconds {
            reading.has_source_picoseconds = 1;
            reading.source_picoseconds = picoseconds;
        }
        if let Some(picoseconds) = value.server_picoseconds {
            reading.has_server_picoseconds = 1;
            reading.server_picoseconds = picoseconds;
        }
        reading
    }
}

/// This many bytes of a field, if it is there.
fn size_if<T>(field: &Option<T>, size: usize) -> usize
    requires small { size ≤ 8 }
    ensures is { result ≡ if_there field.now size }
    ensures small { result ≤ 8 }
{
    match field {
        Some(_) => size,
        None => 0,
    }
}

/// The bytes of the fields of a DataValue except its value.
fn fields_size(value: &DataValue) -> usize
    ensures { result ≡ fields_size value.now }
{
    size_if(&value.status, 4)
        + size_if(&value.source_timestamp, 8)
        + size_if(&value.source_picoseconds, 2)
        + size_if(&value.server_timestamp, 8)
        + size_if(&value.server_picoseconds, 2)
}

/// Reads a DataValue of a body, and returns where in it the value is encoded.
#[tactic(auto, using(crate::proofs::Seen::value_takes, crate::proofs::Seen::value_seen))]
fn view_value(alloc: Global, body: &[u8], source: &mut Octets<'_>) -> Result<UaReading, ReadFault>
    requires stands { Behind body.now source.old }
    ensures sees { SeesBy (data_value_format.decode most_levels) (λ reading d. IsView body.now d reading) source.old
        source.new result }
    ensures behind { OnOk result (Behind body.now source.new) }
{
    let before = source.left();
    let value = DataValue::read_value(alloc, source, MOST_LEVELS)?;
    let behind = before - source.left();
    let size = behind - 1 - fields_size(&value);
    Ok(UaReading::from_value(&value, body.len() - before + 1, size))
}

/// Reads that many DataValues of a body.
fn view_each(
    alloc: Global,
    body: &[u8],
    source: &mut Octets<'_>,
    count: u32,
) -> Result<Vec<UaReading>, ReadFault>
    requires stands { Behind body.now source.old }
    ensures sees { SeesBy (items_at (data_value_format.decode most_levels) count)
        (λ readings ds. AreViews body.now ds readings.items) source.old source.new result }
    ensures behind { OnOk result (Behind body.now source.new) }
{
    let mut readings = Vec::new(alloc);
    for _ in 0..count {
        let reading = view_value(alloc, body, source)?;
        readings.push(reading)?;
    }
    Ok(readings)
}

/// Reads an array of DataValues of a body.
fn view_array(
    alloc: Global,
    body: &[u8],
    source: &mut Octets<'_>,
) -> Result<Vec<UaReading>, ReadFault>
    requires stands { Behind body.now source.old }
    ensures sees { SeesBy ((array data_value_format).decode most_levels)
        (λ readings ds. AreViewsOf body.now ds readings.items) source.old source.new result }
    ensures behind { OnOk result (Behind body.now source.new) }
{
    let count = u32::read_value(alloc, source, MOST_LEVELS)?;
    if count >= FIRST_NEGATIVE {
        return Ok(Vec::new(alloc));
    }
    if source.left() < count as usize {
        return Err(ReadFault::NoValue);
    }
    view_each(alloc, body, source, count)
}

/// Reads a ReadResponse of a body, after its NodeId.
fn view_response(
    alloc: Global,
    body: &[u8],
    source: &mut Octets<'_>,
) -> Result<Vec<UaReading>, ReadFault>
    requires stands { Behind body.now source.old }
    ensures sees { SeesBy (read_response.decode most_levels)
        (λ readings m. AreViewsOf body.now m.results readings.items) source.old source.new result }
{
    let header = ResponseHeader::read_value(alloc, source, MOST_LEVELS)?;
    drop(header);
    let readings = view_array(alloc, body, source)?;
    let diagnostics: UaArray<DiagnosticInfo> = UaArray::read_value(alloc, source, MOST_LEVELS)?;
    drop(diagnostics);
    Ok(readings)
}

/// The status for a fault.
fn status_of(fault: ReadFault) -> u32
    ensures { result ≡ status_of_read_fault fault }
{
    match fault {
        ReadFault::NoValue => BAD_OCTETS,
        ReadFault::OutOfMemory => NO_MEMORY,
    }
}

/// The response that a NodeId announces.
fn announced_kind(id: &NodeId) -> Option<ResponseKind>
    ensures { result ≡ response_kind id.now }
{
    responses!(numbered, standard_number(id)?)
}

/// Whether a NodeId announces the response to a Read.
fn announces_read(id: &NodeId) -> bool
    ensures { IsTrue result ↔ (response_kind id.now ≡ Some ReadKind) }
{
    match announced_kind(id) {
        Some(kind) => kind == ResponseKind::Read,
        None => false,
    }
}

/// The readings of a body, whose NodeId announces a ReadResponse and was read, or a status.
fn last_readings(
    alloc: Global,
    body: &[u8],
    id: &NodeId,
    source: &mut Octets<'_>,
) -> Result<Vec<UaReading>, u32>
    requires id { node_id.decode body.now ≡ Some (id.now, source.old) }
    requires kind { response_kind id.now ≡ Some ReadKind }
    requires stands { Behind body.now source.old }
    ensures readings { IfOk result (λ readings. OfResponse body.now (AreResults body.now readings.items)) }
    ensures fault { IfErr result (λ status. IsNoResponse body.now status) }
{
    match view_response(alloc, body, source) {
        Ok(readings) => {
            if source.left() > 0 {
                return Err(BAD_OCTETS);
            }
            Ok(readings)
        }
        Err(fault) => Err(status_of(fault)),
    }
}

/// The readings in a body that is the response to a Read, or a status; none where its NodeId
/// announces another message.
fn readings_in(alloc: Global, body: &[u8]) -> Result<Option<Vec<UaReading>>, u32>
    ensures readings { IfOk result
        (λ found. MatchOption found (AnnouncesOther body.now)
        (λ readings. OfResponse body.now (AreResults body.now readings.items))) }
    ensures fault { IfErr result (λ status. IsNoResponse body.now status) }
{
    let mut source = Octets::new(body);
    let id = match NodeId::read_value(alloc, &mut source, MOST_LEVELS) {
        Ok(id) => id,
        Err(fault) => return Err(status_of(fault)),
    };
    if !announces_read(&id) {
        return Ok(None);
    }
    match last_readings(alloc, body, &id, &mut source) {
        Ok(readings) => Ok(Some(readings)),
        Err(status) => Err(status),
    }
}

/// Why a response that is none to a Read has no results: a status, and the code of a failed
/// service.
fn without(response: &Response, code: &mut u32) -> u32
    requires other { HasNoResults response.now }
    ensures { TellsNone HasNoResults response.now code.new result }
{
    match response {
        Response::ServiceFault(fault) => {
            *code = fault.response_header.service_result.code;
            SERVICE
        }
        _ => {
            *code = 0;
            UNKNOWN
        }
    }
}

/// The readings in the response to a Read that bytes are the body of, or a status.
fn readings_of(alloc: Global, body: &[u8], code: &mut u32) -> Result<Vec<UaReading>, u32>
    ensures readings { IfOk result
        (λ readings. (code.new ≡ 0) × OfResponse body.now (AreResults body.now readings.items)) }
    ensures fault { IfErr result (λ status. (IsNoResponse body.now status × (code.new ≡ 0))
        ⊎ OfResponse body.now (λ r. TellsNone HasNoResults r code.new status)) }
{
    *code = 0;
    match readings_in(alloc, body) {
        Ok(Some(readings)) => return Ok(readings),
        Ok(None) => (),
        Err(status) => return Err(status),
    }
    let response = match response_of(alloc, body) {
        Ok(response) => response,
        Err(status) => return Err(status),
    };
    let status = without(&response, code);
    drop(response);
    Err(status)
}

/// Copies readings to the start of a buffer where they fit, and returns how many they are.
fn put_readings(readings: &[UaReading], buffer: &mut [UaReading], count: &mut usize) -> u32
    ensures { PutsReadings readings.now buffer.old buffer.new count.new result }
{
    *count = readings.len();
    if readings.len() > buffer.len() {
        return TOO_SMALL;
    }
    buffer[..readings.len()].copy_from_slice(readings);
    OK
}

/// The results of the Read whose response a body is: the status and timestamps of each, and where
/// in the body its value is.
#[unsafe(no_mangle)]
pub extern "C" fn ua_readings(
    alloc: Global,
    body: &[u8],
    readings: &mut [UaReading],
    count: &mut usize,
    code: &mut u32,
) -> u32
    ensures { Views body.now readings.old readings.new count.new code.new result }
{
    *count = 0;
    match readings_of(alloc, body, code) {
        Ok(made) => put_readings(made.as_slice(), readings, count),
        Err(status) => status,
    }
}

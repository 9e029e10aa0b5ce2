//! What clients wrote, told to the program item by item.

ghost use Rattle.std.specs.Prelude.{◌≡◌, ℕ, List, IfOk, IfErr};
ghost use Rattle.ua_c.specs.Handled.{OfHandles};
ghost use Rattle.ua_c.specs.Telling.{EncodesHeld, EncodesNone, SaysNoItem};
ghost use Rattle.ua_c.specs.Telling.{TellsWrite, TellsNext, TellsWritten, untold_in};
ghost use Rattle.ua_c.specs.declared.holding.Machine.TheVariants as machine;
ghost use Rattle.ua_c.specs.declared.untold.ToldItem.{ToldItem as ToldItemOf};

use crate::handle::{UaConnection, UaHandle, UaNodes};
use crate::holding::{Holding, Machine};
use crate::readings::UaReading;
use crate::shared::SharedNodes;
use crate::status::{BAD_OCTETS, NO_HANDLE, NO_MEMORY, NO_MORE, OK, OTHER_HANDLE, UNKNOWN};
use crate::texts::put;
use crate::untold::{ServedConnection, ToldItem, Untold};
use std::alloc::Global;
use ua_builtin::{Wire, WriteFault};
use ua_services::WriteValue;
use ua_variant::DataValue;

/// The canonical encoding of the value of a DataValue, no bytes if it has none, or a status.
fn encoding_in(alloc: Global, value: &DataValue) -> Result<Vec<u8>, u32>
    ensures octets { IfOk result (λ octets. EncodesHeld value.now.value octets.items) }
    ensures fault { IfErr result (λ status. EncodesNone value.now.value status) }
{
    let mut octets = Vec::new(alloc);
    let Some(held) = &value.value else {
        return Ok(octets);
    };
    match held.get().write(&mut octets) {
        Ok(()) => Ok(octets),
        Err(WriteFault::NotWritable) => Err(BAD_OCTETS),
        Err(WriteFault::OutOfMemory) => Err(NO_MEMORY),
    }
}

impl SharedNodes {
    /// Tells one item.
    fn tell(&self, alloc: Global, item: &WriteValue, buffer: &mut [u8]) -> ToldItem
        ensures { TellsWrite self.now item.now buffer.old buffer.new result }
    {
        let Some(index) = self.index_of(&item.node_id) else {
            return ToldItem::only(UNKNOWN);
        };
        let octets = match encoding_in(alloc, &item.value) {
            Ok(octets) => octets,
            Err(status) => return ToldItem::only(status),
        };
        let mut needed = 0;
        let status = put(octets.as_slice(), buffer, &mut needed);
        ToldItem {
            status,
            index,
            needed,
            reading: UaReading::from_value(&item.value, 0, octets.len()),
        }
    }

    /// Tells the next item of those that were not told.
    fn tell_next(&self, alloc: Global, left: &mut Untold, buffer: &mut [u8]) -> ToldItem
        ensures { TellsNext self.now (untold_in left.old) (untold_in left.new) buffer.old buffer.new result }
    {
        if left.read(alloc).is_err() {
            return ToldItem::only(NO_MEMORY);
        }
        let Some(item) = left.items.get(left.told) else {
            return ToldItem::only(NO_MORE);
        };
        let told = self.tell(alloc, item, buffer);
        if told.status == OK {
            left.told += 1;
        }
        told
    }
}

impl Holding {
    /// Tells the next item of a connection over nodes.
    fn tell_over(&mut self, nodes: &Holding, alloc: Global, buffer: &mut [u8]) -> ToldItem
        ensures { TellsWritten self.old self.new nodes.now buffer.old buffer.new result }
    {
        let Machine::Connection(served) = &mut self.machine else {
            return ToldItem::only(OTHER_HANDLE);
        };
        nodes.tell_connection(alloc, served, buffer)
    }

    /// Tells the next item of a connection over these nodes.
    fn tell_connection(
        &self,
        alloc: Global,
        served: &mut ServedConnection,
        buffer: &mut [u8],
    ) -> ToldItem
        ensures { (waiting : List ℕ)
            → TellsWritten (record { machine = machine.Connection served.old; waiting = waiting })
            (record { machine = machine.Connection served.new; waiting = waiting })
            self.now buffer.old buffer.new result }
    {
        let Machine::Nodes(shared) = &self.machine else {
            return ToldItem::only(OTHER_HANDLE);
        };
        shared.tell_next(alloc, &mut served.written, buffer)
    }
}

/// The next item that was stored by the Write which the connection's last step answered: the index
/// of its node, the encoding of its value in a buffer, its status and timestamps.
#[unsafe(no_mangle)]
pub extern "C" fn ua_next_written(
    alloc: Global,
    connection: &mut UaConnection,
    nodes: &mut UaNodes,
    index: &mut usize,
    buffer: &mut [u8],
    needed: &mut usize,
    reading: &mut UaReading,
) -> u32
    ensures { let told : ToldItemOf = record {
      status = result;
      index = index.new;
      needed = needed.new;
      reading = reading.new;
    } in
        OfHandles connection.old.value connection.new.value nodes.old.value nodes.new.value
        (λ why. SaysNoItem buffer.old buffer.new told why)
        (λ old new before after. TellsWritten old new before buffer.old buffer.new told × (after ≡ before)) }
{
    *index = 0;
    *needed = 0;
    *reading = UaReading::nothing();
    let Some(mut held) = connection.take(alloc) else {
        return NO_HANDLE;
    };
    let Some(shared) = nodes.take(alloc) else {
        *connection = UaHandle::of(held);
        return NO_HANDLE;
    };
    let told = held.tell_over(&shared, alloc, buffer);
    *connection = UaHandle::of(held);
    *nodes = UaHandle::of(shared);
    *index = told.index;
    *needed = told.needed;
    *reading = told.reading;
    told.status
}

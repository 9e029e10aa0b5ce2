//! Connections over nodes that they share, for C.

ghost use Rattle.std.specs.Prelude.{◌≡◌, ℕ, List, length};
ghost use Rattle.ua_c.specs.Connecting.{MakesConnection, StepsShared, TellsOnly};
ghost use Rattle.ua_c.specs.Handled.{OfHandles};
ghost use Rattle.ua_c.specs.declared.holding.Machine.TheVariants as machine;
ghost use Rattle.ua_c.specs.declared.report.Report.{Report as Reported};

use crate::handle::{UaConnection, UaHandle, UaNodes};
use crate::holding::{Holding, Machine};
use crate::limits::{UaLimits, allowed};
use crate::making::seat;
use crate::report::Report;
use crate::shared::SharedNodes;
use crate::status::{BAD_LIMITS, FETCH_FIRST, NO_HANDLE, OTHER_HANDLE};
use crate::untold::{ServedConnection, Untold};
use crate::waiting::Waiting;
use std::alloc::Global;
use ua_builtin::DateTime;
use ua_server::{Connection, Written};

impl Holding {
    /// A step of a connection over nodes.
    fn step_over(
        &mut self,
        alloc: Global,
        nodes: &mut Holding,
        piece: &[u8],
        moment: DateTime,
    ) -> Report
        ensures { StepsShared self.old self.new nodes.old nodes.new piece.now moment result }
    {
        let Machine::Connection(served) = &mut self.machine else {
            return Report::only(OTHER_HANDLE);
        };
        nodes.step_connection(alloc, served, &mut self.waiting, piece, moment)
    }

    /// A step of a connection over these nodes; its bytes wait after those that wait already.
    fn step_connection(
        &mut self,
        alloc: Global,
        served: &mut ServedConnection,
        waiting: &mut Waiting,
        piece: &[u8],
        moment: DateTime,
    ) -> Report
        ensures { StepsShared (record { machine = machine.Connection served.old; waiting = waiting.old })
            (record { machine = machine.Connection served.new; waiting = waiting.new })
            self.old self.new piece.now moment result }
    {
        let Machine::Nodes(shared) = &mut self.machine else {
            return Report::only(OTHER_HANDLE);
        };
        shared.step(alloc, served, waiting, piece, moment)
    }
}

impl SharedNodes {
    /// A step of a connection over these nodes, if no bytes wait.
    fn step(
        &mut self,
        alloc: Global,
        served: &mut ServedConnection,
        waiting: &mut Waiting,
        piece: &[u8],
        moment: DateTime,
    ) -> Report
        ensures { (others : List ℕ)
            → StepsShared (record { machine = machine.Connection served.old; waiting = waiting.old })
            (record { machine = machine.Connection served.new; waiting = waiting.new })
            (record { machine = machine.Nodes self.old; waiting = others })
            (record { machine = machine.Nodes self.new; waiting = others }) piece.now moment result }
    {
        if waiting.len() > 0 {
            return Report::only(FETCH_FIRST);
        }
        let mut written = Written::nothing();
        let connection = &mut served.connection;
        let answer = connection.step_telling(&mut self.services, piece, moment, &mut written);
        Report::from_stored(alloc, answer, written, waiting, &mut served.written)
    }
}

/// Makes a connection with these limits, whose channel will have this SecureChannelId, over
/// whichever nodes it is stepped with, and puts it into a handle.
#[unsafe(no_mangle)]
pub extern "C" fn ua_connection_new(
    alloc: Global,
    limits: &UaLimits,
    channel: u32,
    out: &mut UaConnection,
) -> u32
    ensures { MakesConnection limits.now channel out.old.value out.new.value result }
{
    match allowed(limits) {
        Some(limits) => {
            let connection = Connection::new(alloc, limits, channel);
            let written = Untold::nothing(alloc);
            let served = ServedConnection {
                connection,
                written,
            };
            seat(alloc, Machine::Connection(served), out)
        }
        None => BAD_LIMITS,
    }
}

/// One step of a connection over nodes: takes bytes of its client up to the end of the first frame
/// that is answered or that ends the connection, else the whole fragment. The bytes to be sent then
/// wait to be fetched.
#[unsafe(no_mangle)]
pub extern "C" fn ua_connection_step(
    alloc: Global,
    connection: &mut UaConnection,
    nodes: &mut UaNodes,
    piece: &[u8],
    moment: i64,
    taken: &mut usize,
    waiting: &mut usize,
    code: &mut u32,
) -> u32
    ensures { let report : Reported = record { status = result; taken = taken.new; code = code.new } in
        OfHandles connection.old.value connection.new.value nodes.old.value nodes.new.value
        (λ why. TellsOnly why report waiting.new)
        (λ old new before after. StepsShared old new before after piece.now (record { ticks = moment }) report
        × (waiting.new ≡ length new.waiting)) }
{
    *taken = 0;
    *waiting = 0;
    *code = 0;
    let Some(mut held) = connection.take(alloc) else {
        return NO_HANDLE;
    };
    let Some(mut shared) = nodes.take(alloc) else {
        *connection = UaHandle::of(held);
        return NO_HANDLE;
    };
    let report = held.step_over(alloc, &mut shared, piece, DateTime { ticks: moment });
    *waiting = held.waiting.len();
    *connection = UaHandle::of(held);
    *nodes = UaHandle::of(shared);
    *taken = report.taken;
    *code = report.code;
    report.status
}

//! An application beside connections: it sets values, passes on what clients write, and serves two
//! of them over one node table.

ghost use Rattle.std.specs.Prelude.{◌≡◌, ◌++◌, ◌∷◌, [], ℕ, List, None, Some, Ok, Err, IfErr, IfOk, OnErr, OnOk};
ghost use Rattle.ua_channel.specs.ServerStands.{limits_of, channel_of, Goes};
ghost use Rattle.ua_channel.specs.ServerTold.{Told};
ghost use Rattle.ua_nodes.specs.Set.{after_set, set_refusal};
ghost use Rattle.ua_nodes.specs.Table.{node_at};
ghost use Rattle.ua_server.specs.History.{Became, ConnectionEvent, StandsOver, StepOver};
ghost use Rattle.ua_server.specs.Now.{StepNow};
ghost use Rattle.ua_server.specs.Served.{channel_at, session_at, with_own_session};
ghost use Rattle.ua_server.specs.Sharing.{SharedEvent, StandsAmong};
ghost use Rattle.ua_server.specs.State.{State, begun, with_nodes};
ghost use Rattle.ua_server.specs.Stepping.{StepTakes};
ghost use Rattle.ua_server.specs.Storing.{StepStores};
ghost use Rattle.ua_server.specs.ServingOver.{ServesApplication};
ghost use Rattle.example_callers.specs.Application.{BothStep, IfSetFault, IfStepFault};
ghost use Rattle.example_callers.specs.Application.{pulses, step_in};

use std::alloc::{AllocError, Global};
use thiserror::Error;
use ua_builtin::{DateTime, NodeId};
use ua_channel::{Line, Moments};
use ua_nodes::{Reading, SetFault};
use ua_server::laws::a_history_goes_on_by_changes_and_steps;
use ua_server::{
    Application, Connection, End, ServeFault, ServeTerms, Services, Step, StepFault, Watch,
    Written, serve_application,
};
use ua_services::WriteValue;
use ua_variant::{Scalar, Variant};

/// Why a reading was not set, or bytes were not taken after it.
#[derive(Clone, Copy, PartialEq, Eq, Debug, Error)]
pub enum SensorFault {
    #[error("{0}")]
    Set(SetFault),
    #[error("{0}")]
    Step(StepFault),
}

/// Sets what a sensor measured, and then takes bytes of a client: they are answered from the nodes
/// with this reading. A reading that is refused changes nothing, and no bytes are taken.
pub fn set_and_step(
    connection: &mut Connection,
    services: &mut Services,
    sensor: &NodeId,
    reading: Reading,
    piece: &[u8],
    moment: DateTime,
) -> Result<Step, SensorFault>
    ensures steps { (octets : List ℕ) (told : List Told) → Goes (channel_at connection.old) octets told
        → IfOk result
        (λ step. StepNow (channel_at connection.old) moment piece.now (Ok step) (channel_at connection.new) octets told
        (with_own_session connection.old (with_nodes services.old (after_set sensor.now reading services.old.nodes)))
        (with_own_session connection.new services.new)) }
    // The same over the events of the connection, of which the reading is one.
    ensures history { (octets : List ℕ) (hs : List ConnectionEvent) (first : State)
        → StandsOver (channel_at connection.old) octets hs first (with_own_session connection.old services.old)
        → IfOk result (λ step. StepOver (limits_of (channel_at connection.old)) (channel_of (channel_at connection.old))
        moment piece.now (Ok step) (channel_at connection.new) octets
        (hs ++ Became (after_set sensor.now reading services.old.nodes) services.old.made ∷ []) first
        (with_own_session connection.old (with_nodes services.old (after_set sensor.now reading services.old.nodes)))
        (with_own_session connection.new services.new)) }
    ensures taken { IfOk result (λ step. StepTakes piece.now step) }
    ensures channel { channel_of (channel_at connection.new) ≡ channel_of (channel_at connection.old) }
    ensures accepted { IfOk result (λ step. set_refusal (node_at services.old.nodes sensor.now) reading ≡ None) }
    ensures refused { IfErr result
        (IfSetFault (λ fault. (set_refusal (node_at services.old.nodes sensor.now) reading ≡ Some fault)
        × (connection.new ≡ connection.old) × (services.new ≡ services.old))) }
    // Where the step fails the reading was set.
    ensures failed { (octets : List ℕ) (told : List Told) → Goes (channel_at connection.old) octets told
        → IfErr result
        (IfStepFault
        (λ fault. StepNow (channel_at connection.old) moment piece.now (Err fault) (channel_at connection.new) octets
        told
        (with_own_session connection.old (with_nodes services.old (after_set sensor.now reading services.old.nodes)))
        (with_own_session connection.new services.new))) }
{
    a_history_goes_on_by_changes_and_steps();
    match services.set(sensor, reading) {
        Ok(()) => {}
        Err(fault) => return Err(SensorFault::Set(fault)),
    }
    match connection.step(services, piece, moment) {
        Ok(step) => Ok(step),
        Err(fault) => Err(SensorFault::Step(fault)),
    }
}

/// Why bytes of a client were not taken, or not all that they stored was passed on.
#[derive(Debug, Drop)]
pub enum SetpointFault {
    /// The step failed.
    Step(StepFault),
    /// The step is done, and its answer is to be sent, but an allocation for what it stored failed:
    /// none of that was passed on.
    NotHandedOn(Step),
}

/// Takes bytes of a client, keeps in `written` what they wrote, and adds it to the setpoints that a
/// gateway passes on.
pub fn take_setpoints(
    alloc: Global,
    connection: &mut Connection,
    services: &mut Services,
    piece: &[u8],
    moment: DateTime,
    written: &mut Written,
    setpoints: &mut Vec<WriteValue>,
) -> Result<Step, SetpointFault>
    ensures steps { (octets : List ℕ) (told : List Told) → Goes (channel_at connection.old) octets told
        → StepNow (channel_at connection.old) moment piece.now (step_in result) (channel_at connection.new) octets
        told (with_own_session connection.old services.old) (with_own_session connection.new services.new) }
    ensures stores { (octets : List ℕ) (told : List Told) → Goes (channel_at connection.old) octets told
        → StepStores piece.now (step_in result) written.new (channel_at connection.new) octets told
        (with_own_session connection.old services.old) }
    ensures handed_on { IfOk result (λ step. setpoints.new.items ≡ setpoints.old.items ++ written.new) }
    ensures kept { OnErr result (setpoints.new.items ≡ setpoints.old.items) }
{
    let step = match connection.step_telling(services, piece, moment, written) {
        Ok(step) => step,
        Err(fault) => return Err(SetpointFault::Step(fault)),
    };
    match hand_on(alloc, written, setpoints) {
        Ok(()) => Ok(step),
        Err(_) => Err(SetpointFault::NotHandedOn(step)),
    }
}

/// Adds what a step stored, or nothing.
fn hand_on(
    alloc: Global,
    written: &Written,
    setpoints: &mut Vec<WriteValue>,
) -> Result<(), AllocError>
    ensures added { OnOk result (setpoints.new.items ≡ setpoints.old.items ++ written.now) }
    ensures kept { OnErr result (setpoints.new.items ≡ setpoints.old.items) }
{
    let mut values = written.values(alloc)?;
    setpoints.append(&mut values)?;
    Ok(())
}

/// Takes bytes of two clients over one node table, those of the first one first.
pub fn step_both(
    first: &mut Connection,
    second: &mut Connection,
    services: &mut Services,
    piece: &[u8],
    other: &[u8],
    moment: DateTime,
) -> (Result<Step, StepFault>, Result<Step, StepFault>)
    ensures { (channels : ℕ → ℕ) (octets others : List ℕ) (es : List SharedEvent) (begun : State)
        → StandsAmong channels 0 (channel_at first.old) (session_at first.old) octets es begun services.old
        → StandsAmong channels 1 (channel_at second.old) (session_at second.old) others es begun services.old
        → BothStep channels (limits_of (channel_at first.old)) (limits_of (channel_at second.old)) moment piece.now
        other.now result.0 result.1 (channel_at first.new) (session_at first.new) (channel_at second.new)
        (session_at second.new) octets others es begun services.old services.new }
{
    let one = first.step(services, piece, moment);
    let two = second.step(services, other, moment);
    (one, two)
}

/// A switch whose state a node holds: each time that it acts it sets the node to its state, and
/// then changes over.
#[derive(Debug, Drop)]
pub struct Pulse {
    pub id: NodeId,
    pub is_on: bool,
    pub moment: DateTime,
}

impl Application for Pulse {
    ghost use Rattle.example_callers.specs.Application.{pulses};

    ghost changes = { λ before old after new. pulses before old after new };

    fn act(&mut self, services: &mut Services) {
        let reading = Reading {
            value: Variant::One(Scalar::Boolean(self.is_on)),
            status: None,
            source_time: self.moment,
            source_picoseconds: None,
        };
        let _set = services.set(&self.id, reading);
        self.is_on = !self.is_on;
    }
}

/// Serves a client at the other end of a transport, whose Reads find the switch on and off in turn.
pub fn serve_pulse<L: Line, M: Moments, W: Watch>(
    line: &mut L,
    services: &mut Services,
    terms: ServeTerms,
    moments: &mut M,
    watch: &mut W,
    pulse: &mut Pulse,
) -> Result<End, ServeFault>
    ensures { ServesApplication terms.limits terms.channel_id M.gives W.notes pulses (begun services.old, pulse.old)
        (moments.old, watch.old) result (services.new, pulse.new) (moments.new, watch.new) (L.traffic line.old)
        (L.traffic line.new) }
{
    serve_application(line, services, terms, moments, watch, pulse)
}

//! The rules of a client for frames.

ghost use Rattle.std.specs.Prelude.{◌≡◌, List, OnErr};
ghost use Rattle.ua_frame.specs.Frames.{LetsIn};
ghost use Rattle.ua_channel.specs.Asks.{Asking};
ghost use Rattle.ua_channel.specs.Client.{InPhase, client_bound_behind};
ghost use Rattle.ua_channel.specs.ClientTable.{client_gate, client_reasons};
ghost use Rattle.ua_channel.specs.Content.{content};
ghost use Rattle.ua_channel.specs.inside.ClientParts.{Judged, TookFrame};
ghost use Rattle.ua_channel.specs.Client.{client_side};
ghost use Rattle.ua_channel.specs.inside.Parts.{HasShape};
ghost use Rattle.ua_channel.specs.Received.{Received};

use crate::client::event::Event;
use crate::client::greeting::greet;
use crate::client::phase::Phase;
use crate::client::talking::Talking;
use crate::end_core::EndRules;
use crate::end_fault::EndFault;
use std::alloc::Global;
use ua_chunk::MOST_OPEN;
use ua_frame::{Frame, Gate, Limits};

/// The rules of a client for frames: its limits.
#[derive(Debug, Drop)]
pub struct ClientRules {
    pub limits: Limits,
}

impl ClientRules {
    /// Takes a frame, by how far the connection has come.
    #[inline]
    fn judge(
        &self,
        alloc: Global,
        phase: &mut Phase,
        bound: &mut usize,
        frame: Frame,
    ) -> Result<Option<Event>, EndFault>
        requires shape { HasShape frame }
        ensures judges { (before : Received) (asked : List Asking) → InPhase self.now.limits phase.old before asked
            → bound.old ≡ client_bound_behind self.now.limits before.ack
            → LetsIn (client_gate before) frame → Judged (client_reasons self.now.limits before asked (content frame))
            (TookFrame self.now.limits before asked (content frame) phase.new bound.new) result }
        ensures failed { OnErr result (bound.new ≡ bound.old) }
    {
        match phase {
            // nearly always: the channel stays open
            Phase::Open(talking) => talking.on_frame(alloc, frame),
            Phase::Waiting => match greet(alloc, &self.limits, frame) {
                Ok(agreed) => {
                    *bound = agreed.ack.send_buffer_size as usize
                        + MOST_OPEN * self.limits.max_message_size as usize;
                    *phase = Phase::Agreed(agreed);
                    Ok(Some(Event::Agreed(agreed.ack)))
                }
                Err(fault) => Err(fault),
            },
            Phase::Agreed(agreed) => {
                match Talking::on_first(alloc, &self.limits, *agreed, frame) {
                    Ok(talking) => {
                        let event = Event::Opened(talking.channel, talking.newest);
                        *phase = Phase::Open(talking);
                        Ok(Some(event))
                    }
                    Err(fault) => Err(fault),
                }
            }
            Phase::Done => Err(EndFault::Closed),
        }
    }
}

impl EndRules<Phase> for ClientRules {
    type Event = Event;

    ghost side = { client_side };

    #[inline]
    #[tactic(auto, using(crate::proofs::ClientPhases::placed_more))]
    fn lawful() {}

    fn gate(&self, phase: &Phase) -> Gate {
        phase.gate()
    }

    fn on_frame(
        &self,
        alloc: Global,
        phase: &mut Phase,
        bound: &mut usize,
        frame: Frame,
    ) -> Result<Option<Event>, EndFault> {
        self.judge(alloc, phase, bound, frame)
    }

    fn messages_held(&self, phase: &Phase) -> usize {
        match phase {
            Phase::Open(talking) => talking.assembler.held(),
            Phase::Waiting | Phase::Agreed(_) | Phase::Done => 0,
        }
    }

    fn ended() -> Phase {
        Phase::Done
    }
}

//! The rules of a server for frames.

ghost use Rattle.std.specs.Prelude.{◌≡◌, ◌≢◌, OnErr};
ghost use Rattle.ua_frame.specs.declared.frame.Frame.{Frame};
ghost use Rattle.ua_frame.specs.declared.kind.Kind.TheVariants.{Clo};
ghost use Rattle.ua_frame.specs.Hello.{hello_gate as first_gate};
ghost use Rattle.ua_frame.specs.Kinds.{lets_in};
ghost use Rattle.ua_channel.specs.Content.{content};
ghost use Rattle.ua_channel.specs.inside.Parts.{HasShape};
ghost use Rattle.ua_channel.specs.inside.ServerFrames.{JudgesFrame};
ghost use Rattle.ua_channel.specs.ServerStands.{server_side};
ghost use Rattle.ua_channel.specs.Received.{Received};
ghost use Rattle.ua_channel.specs.ServerStands.{InServerPhase, Stays, bound_after};

use crate::agreement::judge_hello;
use crate::end_core::EndRules;
use crate::end_fault::EndFault;
use crate::running::Running;
use crate::server::Phase;
use crate::server_event::Event;
use std::alloc::Global;
use ua_chunk::{MOST_OPEN, read_chunk};
use ua_frame::{Frame, Gate, Kind, LEAST_BUFFER_SIZE, Limits};

/// The rules of a server for frames: its limits, and its SecureChannelId.
#[derive(Debug, Drop)]
pub struct ServerRules {
    pub limits: Limits,
    pub channel: u32,
}

/// The filter for a HEL.
pub(crate) fn hello_gate() -> Gate
    ensures { result ≡ first_gate }
{
    Gate::new(LEAST_BUFFER_SIZE).taking(Kind::Hel)
}

impl ServerRules {
    ghost use Rattle.std.specs.Prelude.{ℕ, IsTrue};
    ghost use Rattle.ua_channel.specs.inside.ServerFrames.{phase_gate};
    ghost use Rattle.ua_channel.specs.declared.server.Phase.TheVariants.{Open};
    ghost use Rattle.ua_channel.specs.ServerRules.{running_gate};

    /// Takes a frame that is no CLO on an open channel.
    #[inline(always)]
    fn on_running(
        &self,
        alloc: Global,
        running: &mut Running,
        frame: Frame,
    ) -> Result<Option<Event>, EndFault>
        requires shape { HasShape frame }
        requires goes_on { frame.kind ≢ Clo }
        ensures { (before : Received) (bound : ℕ) → Stays self.now.limits running.old before
            → bound ≡ bound_after self.now.limits before
            → IsTrue (lets_in (running_gate running.old.agreement.ack.receive_buffer_size) frame.kind)
            → JudgesFrame self.now before (content frame) (Open running.new) bound result }
    {
        match frame.kind {
            Kind::Msg => running.on_message(self.channel, read_chunk(frame)),
            Kind::Opn => running.on_renewal(alloc, self.channel, frame),
            Kind::Clo | Kind::Hel | Kind::Ack | Kind::Err => Err(EndFault::Closed),
        }
    }

    /// Takes a frame, by how far the connection has come.
    #[inline]
    fn judge(
        &self,
        alloc: Global,
        phase: &mut Phase,
        bound: &mut usize,
        frame: Frame,
    ) -> Result<Option<Event>, EndFault>
        requires shape { HasShape frame }
        ensures judges { (before : Received) → InServerPhase self.now.limits phase.old before
            → bound.old ≡ bound_after self.now.limits before
            → IsTrue (lets_in (phase_gate phase.old) frame.kind)
            → JudgesFrame self.now before (content frame) phase.new bound.new result }
        ensures failed { OnErr result (bound.new ≡ bound.old) }
    {
        match phase {
            Phase::Open(running) => match frame.kind {
                Kind::Clo => match running.on_close(self.channel, read_chunk(frame)) {
                    Ok(()) => {
                        *phase = Phase::Done;
                        Ok(Some(Event::Closed))
                    }
                    Err(fault) => Err(fault),
                },
                // nearly always: the channel stays where it is
                _ => self.on_running(alloc, running, frame),
            },
            Phase::Waiting => match judge_hello(alloc, &self.limits, &frame.body) {
                Ok(agreement) => {
                    *bound = agreement.receive_size() as usize
                        + MOST_OPEN * self.limits.max_message_size as usize;
                    *phase = Phase::Greeted(agreement);
                    Ok(Some(Event::Agreed(agreement)))
                }
                Err(fault) => Err(fault),
            },
            Phase::Greeted(agreement) => {
                match Running::open(alloc, &self.limits, *agreement, self.channel, frame) {
                    Ok((running, event)) => {
                        *phase = Phase::Open(running);
                        Ok(Some(event))
                    }
                    Err(fault) => Err(fault),
                }
            }
            Phase::Done => Err(EndFault::Closed),
        }
    }
}

impl EndRules<Phase> for ServerRules {
    type Event = Event;

    ghost side = { server_side };

    #[inline]
    fn lawful() {}

    fn gate(&self, phase: &Phase) -> Gate {
        match phase {
            Phase::Open(running) => Gate::new(running.agreement().receive_size())
                .taking(Kind::Opn)
                .taking(Kind::Msg)
                .taking(Kind::Clo),
            Phase::Waiting => hello_gate(),
            Phase::Greeted(agreement) => Gate::new(agreement.receive_size()).taking(Kind::Opn),
            Phase::Done => Gate::new(0),
        }
    }

    fn on_frame(
        &self,
        alloc: Global,
        phase: &mut Phase,
        bound: &mut usize,
        frame: Frame,
    ) -> Result<Option<Event>, EndFault> {
        self.judge(alloc, phase, bound, frame)
    }

    fn messages_held(&self, phase: &Phase) -> usize {
        match phase {
            Phase::Open(running) => running.held(),
            Phase::Waiting | Phase::Greeted(_) | Phase::Done => 0,
        }
    }

    fn ended() -> Phase {
        Phase::Done
    }
}

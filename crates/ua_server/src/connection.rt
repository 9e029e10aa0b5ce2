//! One of several connections over one node table.

ghost use Rattle.std.specs.Prelude.{◌≡◌, ◌≤◌, ◌↔◌, [], Err, None, IfOk, OnErr, IsErrOf, IsTrue};
ghost use Rattle.std.specs.Map.{keys_of};
ghost use Rattle.ua_channel.specs.Received.{received};
ghost use Rattle.ua_channel.specs.ServerStands.{limits_of, channel_of, bound_of, bound_after};
ghost use Rattle.ua_channel.specs.ServerStands.{held_after, IsDone, ChannelStands as Holds};
ghost use Rattle.ua_channel.specs.ServerStands.{WhateverCame, WhateverWasTold};
ghost use Rattle.ua_server.specs.History.{StandsOver};
ghost use Rattle.ua_server.specs.Served.{channel_at, session_at, with_own_session};
ghost use Rattle.ua_server.specs.Serving.{IsClean};
ghost use Rattle.ua_server.specs.State.{State};
ghost use Rattle.ua_server.specs.Stepping.{StepTakes};
ghost use Rattle.ua_server.specs.Storing.{StepStores};
ghost use Rattle.ua_server.specs.declared.step.StepFault.TheVariants as step_fault;
ghost use Rattle.ua_server.specs.Now.{StepsNow};
ghost use Rattle.ua_server.specs.Sharing.{StepsAmong, BeginsAmong};

use crate::server::Server;
use crate::services::Services;
use crate::session::SessionSlot;
use crate::step::{Step, StepFault};
use crate::written::Written;
use std::alloc::Global;
use ua_builtin::DateTime;
use ua_frame::Limits;

/// A server on one of several connections over the same services, with its own session.
///
/// It answers each message from the nodes as left by all messages completed before it, on whichever
/// connection, and by all changes of the application.
#[derive(Debug, Drop)]
pub struct Connection {
    server: Server,
    slot: SessionSlot,
}

impl Connection {
    /// A connection that waits for a client's HEL, with these limits. Its channel will have this
    /// SecureChannelId, which no other open channel of the server has (OPC 10000-6, 6.7.2).
    pub fn new(alloc: Global, limits: Limits, channel_id: u32) -> Connection
        ensures among { BeginsAmong (channel_at result) (session_at result) channel_id }
        ensures history { (first : State) → StandsOver (channel_at result) [] [] first first }
        ensures holds { Holds (channel_at result) [] [] [] }
        ensures session { session_at result ≡ None }
        ensures limits { limits_of (channel_at result) ≡ limits }
        ensures channel { channel_of (channel_at result) ≡ channel_id }
    {
        Connection {
            server: Server::new(alloc, limits, channel_id),
            slot: SessionSlot::empty(),
        }
    }

    /// How many bytes are held, as [`Server::held`]: never more than [`bound`](Connection::bound),
    /// whatever the client sends and other connections do.
    pub fn held(&self) -> usize
        ensures held { WhateverCame (channel_at self.now) (λ octets frames rest.
            result ≡ held_after (received frames) rest) }
        ensures bound { WhateverCame (channel_at self.now) (λ octets frames rest.
            result ≤ bound_after (limits_of (channel_at self.now)) (received frames)) }
        ensures done { IsDone (channel_at self.now) → result ≡ 0 }
    {
        self.server.held()
    }

    /// The most bytes that may be held, as [`Server::bound`].
    pub fn bound(&self) -> usize
        ensures stands { WhateverCame (channel_at self.now) (λ octets frames rest.
            result ≡ bound_after (limits_of (channel_at self.now)) (received frames)) }
        ensures is { result ≡ bound_of (channel_at self.now) }
    {
        self.server.bound()
    }

    /// Whether the client's bytes may end here: no frame and no message is unfinished.
    pub fn is_clean(&self) -> bool
        ensures { WhateverCame (channel_at self.now) (λ octets frames rest. IsTrue result ↔ IsClean frames rest) }
    {
        self.server.is_clean()
    }

    /// Does what [`Server::step`] does, under the session of this connection; the session in the
    /// services stays as it is.
    pub fn step(
        &mut self,
        services: &mut Services,
        piece: &[u8],
        moment: DateTime,
    ) -> Result<Step, StepFault>
        // Among all connections over these services: what is sent to this one, and the state of
        // each other one.
        ensures among { StepsAmong moment piece.now result (channel_at self.old) (session_at self.old) services.old
            (channel_at self.new) (session_at self.new) services.new }
        // As a function of the current state alone, however it arose.
        ensures now { StepsNow (channel_at self.old) moment piece.now result (channel_at self.new)
            (with_own_session self.old services.old) (with_own_session self.new services.new) }
        ensures apart { services.new.session ≡ services.old.session }
        ensures endpoint { services.new.endpoint ≡ services.old.endpoint }
        ensures memory_limit { services.new.memory_limit ≡ services.old.memory_limit }
        // No node comes, goes or moves.
        ensures ids { keys_of services.new.nodes ≡ keys_of services.old.nodes }
        ensures progress { IfOk result (λ step. StepTakes piece.now step) }
        // After a failed allocation, the bound is what it was before the call.
        ensures starved { WhateverWasTold (channel_at self.old) (λ octets told.
            IsErrOf result step_fault.OutOfMemory → bound_of (channel_at self.new) ≡ bound_of (channel_at self.old)) }
        ensures closed { IsDone (channel_at self.old) → (result ≡ Err step_fault.Closed) × (self.new ≡ self.old)
            × (services.new ≡ services.old) }
        ensures limits { limits_of (channel_at self.new) ≡ limits_of (channel_at self.old) }
        ensures channel { channel_of (channel_at self.new) ≡ channel_of (channel_at self.old) }
    {
        let mut unasked = Written::nothing();
        self.step_telling(services, piece, moment, &mut unasked)
    }

    /// Does what [`step`](Connection::step) does, and keeps in `written` what the Write that was
    /// answered stored, as [`Server::step_telling`].
    pub fn step_telling(
        &mut self,
        services: &mut Services,
        piece: &[u8],
        moment: DateTime,
        written: &mut Written,
    ) -> Result<Step, StepFault>
        // Among all connections over these services: what is sent to this one, and the state of
        // each other one.
        ensures among { StepsAmong moment piece.now result (channel_at self.old) (session_at self.old) services.old
            (channel_at self.new) (session_at self.new) services.new }
        // As a function of the current state alone, however it arose.
        ensures now { StepsNow (channel_at self.old) moment piece.now result (channel_at self.new)
            (with_own_session self.old services.old) (with_own_session self.new services.new) }
        // `written` has just the items that were stored by the Write that this step answered, in
        // order, and nothing of another step.
        ensures stores { WhateverWasTold (channel_at self.old) (λ octets told. StepStores piece.now result written.new
            (channel_at self.new) octets told (with_own_session self.old services.old)) }
        ensures failed { OnErr result (written.new ≡ []) }
        ensures apart { services.new.session ≡ services.old.session }
        ensures endpoint { services.new.endpoint ≡ services.old.endpoint }
        ensures memory_limit { services.new.memory_limit ≡ services.old.memory_limit }
        // No node comes, goes or moves.
        ensures ids { keys_of services.new.nodes ≡ keys_of services.old.nodes }
        ensures progress { IfOk result (λ step. StepTakes piece.now step) }
        // After a failed allocation, the bound is what it was before the call.
        ensures starved { WhateverWasTold (channel_at self.old) (λ octets told.
            IsErrOf result step_fault.OutOfMemory → bound_of (channel_at self.new) ≡ bound_of (channel_at self.old)) }
        ensures closed { IsDone (channel_at self.old) → (result ≡ Err step_fault.Closed) × (self.new ≡ self.old)
            × (services.new ≡ services.old) }
        ensures limits { limits_of (channel_at self.new) ≡ limits_of (channel_at self.old) }
        ensures channel { channel_of (channel_at self.new) ≡ channel_of (channel_at self.old) }
    {
        services.swap_session(&mut self.slot);
        let step = self.server.step_telling(services, piece, moment, written);
        services.swap_session(&mut self.slot);
        step
    }
}

//! An open channel of a server.

ghost use Rattle.std.specs.Prelude.{◌≡◌, option_map};

use crate::agreement::Agreement;
use crate::end_fault::EndFault;
use crate::server_event::Event;
use crate::server_opening::judge_opening;
use std::alloc::Global;
use ua_builtin::StatusCode;
use ua_chunk::{Assembler, Chunk, Lane};
use ua_frame::{Frame, Limits};

/// The first token.
const FIRST_TOKEN: u32 = 1;

/// A channel of a server that has a token.
#[derive(Debug, Drop)]
pub struct Running {
    agreement: Agreement,
    assembler: Assembler,
    /// How many tokens were issued: they are 1, 2, 3, .. up to this.
    issued: u32,
    /// The last token that the client used.
    used: u32,
}

impl Running {
    ghost use Rattle.std.specs.Prelude.{◌<◌, ◌≤◌, ◌+◌, ◌^◌, ◌*◌, length, Some};
    ghost use Rattle.ua_builtin.specs.Reasons.{first_reason};
    ghost use Rattle.ua_frame.specs.declared.limits.Limits.{Limits};
    ghost use Rattle.ua_chunk.specs.declared.chunk.Chunk.{Chunk};
    ghost use Rattle.ua_chunk.specs.Open.{open_ids, open_octets};
    ghost use Rattle.ua_channel.specs.Agreement.{lane_of};
    ghost use Rattle.ua_channel.specs.Content.{opening_of};
    ghost use Rattle.ua_channel.specs.Content.Content.{Opens, Sends, Closes};
    ghost use Rattle.ua_channel.specs.Received.{Received};
    ghost use Rattle.ua_channel.specs.inside.ServerParts.{JudgesFirst, Judges, JudgesClose, ids_reasons};
    ghost use Rattle.ua_channel.specs.ServerStands.{Stays, HasGreeted};

    /// A channel that the first OPN opens, and its event.
    pub(crate) fn open(
        alloc: Global,
        limits: &Limits,
        agreement: Agreement,
        channel: u32,
        frame: Frame,
    ) -> Result<(Running, Event), EndFault>
        ensures { (before : Received) → HasGreeted limits.now agreement before
            → JudgesFirst limits.now channel before (Opens (opening_of frame.body)) result }
    {
        let opened = judge_opening(alloc, channel, 0, frame)?;
        let running = Running {
            agreement,
            assembler: Assembler::new(
                alloc,
                limits.max_message_size,
                limits.max_chunk_count,
                Some(opened.sequence),
            ),
            issued: FIRST_TOKEN,
            used: FIRST_TOKEN,
        };
        Ok((running, opened.event(FIRST_TOKEN)))
    }

    /// What both ends agreed to.
    #[inline]
    pub(crate) fn agreement(&self) -> &Agreement
        ensures { result.now ≡ self.now.agreement }
    {
        &self.agreement
    }

    /// Where replies go.
    pub(crate) fn lane(&self, channel: u32) -> Lane
        ensures lane { result ≡ lane_of channel self.now.used self.now.agreement }
        ensures room { 0 < result.room }
        ensures size { result.room + 24 < 2 ^ 32 }
    {
        self.agreement.lane(channel, self.used)
    }

    /// The number of bytes held of unfinished messages.
    pub(crate) fn held(&self) -> usize
        ensures held { (limits : Limits) (before : Received) → Stays limits self.now before
            → result ≡ open_octets before.messages }
        ensures bound { (limits : Limits) (before : Received) → 0 < limits.max_message_size
            → Stays limits self.now before → result ≤ 4 * limits.max_message_size }
    {
        self.assembler.held()
    }

    /// The number of unfinished messages.
    pub(crate) fn open_count(&self) -> usize
        ensures { (limits : Limits) (before : Received) → Stays limits self.now before
            → result ≡ length (open_ids before.messages) }
    {
        self.assembler.open_count()
    }

    /// Why the SecureChannelId and the TokenId of a chunk are refused.
    #[inline(always)]
    fn judge_ids(&self, channel: u32, chunk: &Chunk) -> Option<StatusCode>
        ensures { option_map (λ status. status.code) result
            ≡ first_reason (ids_reasons chunk.now channel self.now.used self.now.issued) }
    {
        if chunk.channel != channel {
            return Some(StatusCode::BAD_TCP_SECURE_CHANNEL_UNKNOWN);
        }
        if chunk.token < self.used || chunk.token > self.issued {
            return Some(StatusCode::BAD_SECURE_CHANNEL_TOKEN_UNKNOWN);
        }
        None
    }

    /// Takes a chunk of a message.
    #[inline(always)]
    pub(crate) fn on_message(
        &mut self,
        channel: u32,
        chunk: Chunk,
    ) -> Result<Option<Event>, EndFault>
        ensures { (limits : Limits) (before : Received) → Stays limits self.old before
            → Judges limits channel before (Sends chunk) result self.new }
    {
        if let Some(code) = self.judge_ids(channel, &chunk) {
            return Err(EndFault::Refused(code));
        }
        let token = chunk.token;
        match self.assembler.accept(chunk) {
            Ok(delivered) => {
                self.used = token;
                Ok(Event::from_delivered(token, delivered))
            }
            Err(fault) => Err(EndFault::from_chunk(fault, StatusCode::BAD_REQUEST_TOO_LARGE)),
        }
    }

    /// Takes the chunk of a close, with which the channel ends.
    pub(crate) fn on_close(&mut self, channel: u32, chunk: Chunk) -> Result<(), EndFault>
        ensures { (limits : Limits) (before : Received) → Stays limits self.old before
            → JudgesClose limits channel before (Closes chunk) result }
    {
        if let Some(code) = self.judge_ids(channel, &chunk) {
            return Err(EndFault::Refused(code));
        }
        match self.assembler.step(chunk.sequence) {
            Ok(()) => Ok(()),
            Err(fault) => Err(EndFault::from_chunk(fault, StatusCode::BAD_REQUEST_TOO_LARGE)),
        }
    }

    /// Takes a later OPN, which renews the token. Unfinished messages stay as they are.
    pub(crate) fn on_renewal(
        &mut self,
        alloc: Global,
        channel: u32,
        frame: Frame,
    ) -> Result<Option<Event>, EndFault>
        ensures { (limits : Limits) (before : Received) → Stays limits self.old before
            → Judges limits channel before (Opens (opening_of frame.body)) result self.new }
    {
        let opened = judge_opening(alloc, channel, self.issued, frame)?;
        if let Err(fault) = self.assembler.step(opened.sequence) {
            return Err(EndFault::from_chunk(fault, StatusCode::BAD_REQUEST_TOO_LARGE));
        }
        if self.issued == u32::MAX {
            return Err(EndFault::Refused(StatusCode::BAD_TCP_NOT_ENOUGH_RESOURCES));
        }
        self.issued += 1;
        Ok(Some(opened.event(self.issued)))
    }
}

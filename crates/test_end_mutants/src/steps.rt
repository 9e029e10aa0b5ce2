//! Steps of a server.

ghost use Rattle.std.specs.Prelude.{◌≡◌, ℕ, List};
ghost use Rattle.ua_channel.specs.Received.{received};
ghost use Rattle.ua_channel.specs.ServerStands.{ChannelStands, Goes, held_after};
ghost use Rattle.ua_channel.specs.ServerTold.{Told};
ghost use Rattle.ua_frame.specs.declared.frame.Frame.{Frame};
ghost use Rattle.ua_server.specs.Now.{StepNow};
ghost use Rattle.ua_server.specs.Served.{channel_in};

use ua_builtin::DateTime;
use ua_server::{Server, Services, Step, StepFault};

/// A step of a server, as a function of what stands.
pub fn step_once(
    server: &mut Server,
    services: &mut Services,
    piece: &[u8],
    moment: DateTime,
) -> Result<Step, StepFault>
    ensures now { (octets : List ℕ) (told : List Told) → Goes (channel_in server.old) octets told
        → StepNow (channel_in server.old) moment piece.now result (channel_in server.new) octets told services.old
        services.new }
{
    server.step(services, piece, moment)
}

/// How many bytes a server holds.
pub fn server_holds(server: &Server) -> usize
    ensures held { (octets : List ℕ) (frames : List Frame) (rest : List ℕ)
        → ChannelStands (channel_in server.now) octets frames rest
        → result ≡ held_after (received frames) rest }
{
    server.held()
}

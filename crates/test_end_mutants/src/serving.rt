//! A transport that is served.

ghost use Rattle.ua_server.specs.Serving.{Serves, LineFailed};
ghost use Rattle.ua_server.specs.ServingOver.{ServesApplication};
ghost use Rattle.ua_server.specs.State.{begun};

use std::alloc::Global;
use ua_channel::{Line, Moments};
use ua_frame::Limits;
use ua_server::{
    Application, End, ServeFault, ServeTerms, Services, Watch, serve, serve_application,
};

/// Serves the client at the other end of a transport.
pub fn serve_begun<L: Line, M: Moments>(
    alloc: Global,
    line: &mut L,
    services: &mut Services,
    limits: Limits,
    channel_id: u32,
    moments: &mut M,
) -> Result<End, ServeFault>
    ensures serves { Serves limits channel_id M.gives (begun services.old) moments.old result services.new moments.new
        (L.traffic line.old) (L.traffic line.new) }
    ensures failed { LineFailed (L.failures line.old) result (L.failures line.new) }
{
    serve(alloc, line, services, limits, channel_id, moments)
}

/// Serves it beside an application.
pub fn serve_beside<L: Line, M: Moments, W: Watch, A: Application>(
    line: &mut L,
    services: &mut Services,
    terms: ServeTerms,
    moments: &mut M,
    watch: &mut W,
    application: &mut A,
) -> Result<End, ServeFault>
    ensures serves { ServesApplication terms.limits terms.channel_id M.gives W.notes A.changes
        (begun services.old, application.old) (moments.old, watch.old) result (services.new, application.new)
        (moments.new, watch.new) (L.traffic line.old) (L.traffic line.new) }
{
    serve_application(line, services, terms, moments, watch, application)
}

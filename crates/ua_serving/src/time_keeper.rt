//! CurrentTime, where the server keeps it.

ghost use Rattle.std.specs.Prelude.{◌≡◌};
ghost use Rattle.ua_node_files.specs.CurrentTime.{current_time as reading_at, current_time_id as id};
ghost use Rattle.ua_nodes.specs.Set.{after_set};
ghost use Rattle.ua_server.specs.State.{with_nodes};

use ua_builtin::DateTime;
use ua_channel::Moments;
use ua_node_files::{current_time, current_time_id};
use ua_server::{Application, Services};

/// Sets CurrentTime, `i=2258`, to a time.
pub(crate) fn set_current_time(services: &mut Services, moment: DateTime)
    ensures { services.new ≡ with_nodes services.old (after_set id (reading_at moment) services.old.nodes) }
{
    // never refused: the node is there, and is a DateTime
    let _set = services.set(&current_time_id(), current_time(moment));
}

/// Sets CurrentTime, `i=2258`, to the current time before each response.
#[derive(Debug, Drop)]
pub struct TimeKeeper<M> {
    /// The source of timestamps.
    pub moments: M,
}

impl<M: Moments> Application for TimeKeeper<M> {
    ghost use Rattle.ua_serving.specs.Standard.{KeepsTime};

    ghost changes = { KeepsTime M.gives };

    fn act(&mut self, services: &mut Services) {
        let moment = DateTime {
            ticks: self.moments.next(),
        };
        set_current_time(services, moment);
    }
}

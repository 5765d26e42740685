//! Whether anything of a cluster can go on.
ghost use Rattle.std.specs.Prelude.{◌≢◌, MatchBool, MatchOption, None};
ghost use Rattle.jd_model.specs.World.{moves};
ghost use Rattle.jd_world.specs.World.{net_of, IsMainStuck, IsStuck, IsQuietNet, CanGoOn};

use crate::world::World;
use jd_model::Event;

impl World {
    /// A possible event of process 1 or a link to it. None exactly where there is none.
    fn possible_main(&self) -> Option<Event>
        ensures { MatchOption result (IsMainStuck (net_of self.now)) (λ event. moves (net_of self.now) event ≢ None) }
    {
        if let Some(to) = self.hub.first_mail() {
            return Some(Event::Emit(1, to));
        }
        if let Some(from) = self.outside.to_main.first() {
            return Some(Event::Deliver(from, 1));
        }
        if self.hub.ready() {
            return Some(Event::Run(1));
        }
        None
    }

    /// A possible event, of process 1 where it has one. None exactly where there is none.
    pub(crate) fn possible(&self) -> Option<Event>
        ensures { MatchOption result (IsStuck (net_of self.now)) (λ event. moves (net_of self.now) event ≢ None) }
    {
        match self.possible_main() {
            Some(event) => Some(event),
            None => self.outside.possible(),
        }
    }
}

/// Whether no event is possible and main asks no line. It takes no memory.
pub fn quiet(world: &World) -> bool
    ensures { MatchBool result (IsQuietNet (net_of world.now)) (CanGoOn (net_of world.now)) }
{
    world.possible().is_none() && world.hub.main_line().is_none()
}

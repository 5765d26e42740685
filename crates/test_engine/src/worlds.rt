//! What no contract says: that calls with enough memory succeed.
ghost use Rattle.std.specs.Prelude.{IfOk};
ghost use Rattle.jd_world.specs.Fabric.{IsWorker};

use crate::building::{ASKED, CALLED, FETCHED_SEVEN, FUTURE, MAIN, cluster, program};
use jd_model::{Effect, Event, Mark};
use jd_task::{Closure, Msg};
use jd_value::{Block, Body, Expr, Shared, Stmt, Value};
use jd_world::{
    Arrival, Fabric, FabricFault, ListFabric, StepFault, World, quiet, world_print, world_step,
};
use sqlite_items::Items;
use std::alloc::Global;
use std::test::Fail;

/// `() -> 7`
fn seven(alloc: Global) -> Result<Body, Fail> {
    let parameters = Shared::new(alloc, Items::new(alloc))?;
    let mut stmts = Items::new(alloc);
    stmts.push(Stmt::Value(Expr::Int(7)))?;
    let block = Shared::new(alloc, Block { stmts })?;
    Ok(Body {
        number: 1,
        parameters,
        block,
    })
}

fn call_of_seven(alloc: Global) -> Result<Msg, Fail> {
    let body = seven(alloc)?;
    let kept = Items::new(alloc);
    Ok(Msg::Call {
        cell: FUTURE,
        task: CALLED,
        code: Closure { body, kept },
        args: Items::new(alloc),
    })
}

/// Whether the message answers the first request with 7.
fn has_seven(msg: &Msg) -> bool {
    match msg {
        Msg::Reply { ask, outcome } => match outcome {
            Ok(value) => *ask == 1 && matches!(value, Value::Int(7)),
            Err(_) => false,
        },
        _ => false,
    }
}

/// Whether worker 2 answers the first request with 7.
fn is_seven(reply: &Result<Arrival, FabricFault>) -> bool {
    match reply {
        Ok(Arrival::Message { from, msg }) => *from == 2 && has_seven(msg),
        _ => false,
    }
}

fn is_quiet(arrival: &Result<Arrival, FabricFault>) -> bool {
    matches!(arrival, Ok(Arrival::Quiet))
}

/// A fabric that has begun with one worker.
fn begun(alloc: Global) -> Result<ListFabric, Fail>
    ensures { IfOk result (λ fabric. IsWorker (⟦<ListFabric as Fabric>⟧.begun fabric) 2) }
{
    let start = cluster(alloc, 1);
    let mut fabric = ListFabric::new(alloc);
    let begun = fabric.begin(&start);
    drop(start);
    match begun {
        Ok(()) => Ok(fabric),
        Err(_) => {
            drop(fabric);
            Err(Fail::from("not begun"))
        }
    }
}

#[test]
fn a_call_is_answered(rt: HostRuntime) -> Result<(), Fail> {
    let alloc = rt.alloc();
    let call = call_of_seven(alloc)?;
    let mut fabric = begun(alloc)?;
    assert!(rt; fabric.send(2, call).is_ok());
    let fetch = Msg::Fetch {
        ask: 1,
        cell: FUTURE,
    };
    assert!(rt; fabric.send(2, fetch).is_ok());
    let mark = Mark {
        effect: Effect::Printed,
        by: 1,
    };
    assert!(rt; fabric.tell(mark).is_ok());
    let reply = fabric.receive();
    assert!(rt; is_seven(&reply));
    drop(reply);
    let quiet = fabric.receive();
    assert!(rt; is_quiet(&quiet));
    drop(quiet);
    drop(fabric);
    Ok(())
}

/// The events of a cluster with one worker: those of process 1 and of the links to it come first.
const POSSIBLE: [Event; 6] = [
    Event::Emit(1, 2),
    Event::Deliver(2, 1),
    Event::Run(1),
    Event::Emit(2, 1),
    Event::Deliver(1, 2),
    Event::Run(2),
];

/// Takes the first event that is possible. None where it can't be taken, or there is none.
fn first_taken(world: &mut World) -> Option<Event> {
    for event in POSSIBLE {
        match world_step(world, &event) {
            Ok(()) => return Some(event),
            Err(StepFault::NotPossible) => {}
            Err(_) => return None,
        }
    }
    None
}

/// Takes the first possible event, else prints main's line, until the world is quiet; the events, with a `None` for the
/// line.
fn driven(alloc: Global, world: &mut World) -> Result<Vec<Option<Event>>, Fail> {
    let mut events = Vec::new(alloc);
    for _ in 0..100 {
        if quiet(world) {
            break;
        }
        let event = first_taken(world);
        if event.is_none() && world_print(world).is_err() {
            break;
        }
        events.push(event)?;
    }
    Ok(events)
}

const EVENTS: [Option<Event>; 14] = [
    Some(Event::Run(1)),
    Some(Event::Emit(1, 2)),
    Some(Event::Emit(1, 2)),
    Some(Event::Run(1)),
    Some(Event::Emit(1, 2)),
    Some(Event::Deliver(1, 2)),
    Some(Event::Deliver(1, 2)),
    Some(Event::Deliver(1, 2)),
    Some(Event::Run(2)),
    Some(Event::Emit(2, 1)),
    Some(Event::Deliver(2, 1)),
    Some(Event::Run(1)),
    None,
    Some(Event::Run(1)),
];

const MARKS: [Mark; 9] = [
    Mark {
        effect: Effect::Ran(MAIN),
        by: 1,
    },
    Mark {
        effect: Effect::Ran(MAIN),
        by: 1,
    },
    Mark {
        effect: Effect::Started(CALLED),
        by: 2,
    },
    Mark {
        effect: Effect::Ran(CALLED),
        by: 2,
    },
    Mark {
        effect: Effect::Took(ASKED),
        by: 2,
    },
    Mark {
        effect: Effect::Returned(MAIN),
        by: 1,
    },
    Mark {
        effect: Effect::Ran(MAIN),
        by: 1,
    },
    Mark {
        effect: Effect::Printed,
        by: 1,
    },
    Mark {
        effect: Effect::Ran(MAIN),
        by: 1,
    },
];

/// The cluster of one worker, before anything has happened.
fn world(alloc: Global) -> Result<World, Fail> {
    let program = program(alloc, FETCHED_SEVEN)?;
    let world = World::start(alloc, &program, 1);
    drop(program);
    Ok(world?)
}

#[test]
fn a_program_runs_event_by_event(rt: HostRuntime) -> Result<(), Fail> {
    let alloc = rt.alloc();
    let mut world = world(alloc)?;
    let events = driven(alloc, &mut world)?;
    assert!(rt; events.as_slice() == EVENTS.as_slice());
    drop(events);
    assert!(rt; world.marks() == MARKS.as_slice());
    assert!(rt; world.events() == 6);
    assert!(rt; quiet(&world));
    drop(world);
    Ok(())
}

const NOT_YET: [Event; 4] = [
    Event::Emit(1, 2),
    Event::Deliver(2, 1),
    Event::Run(2),
    Event::Emit(2, 1),
];

#[test]
fn only_main_can_go_on_at_first(rt: HostRuntime) -> Result<(), Fail> {
    let mut world = world(rt.alloc())?;
    for event in &NOT_YET {
        let refused = world_step(&mut world, event);
        assert!(rt; matches!(refused, Err(StepFault::NotPossible)));
    }
    let refused = world_print(&mut world);
    assert!(rt; matches!(refused, Err(StepFault::NotPossible)));
    assert!(rt; !quiet(&world));
    drop(world);
    Ok(())
}

//! The rows of a node's tables.

use jd_model::Stage;
use jd_task::{Place, TaskId};
use jd_value::{Ask, RefId};
use std::marker::Model;

/// A task that runs here.
#[derive(Drop)]
pub struct Running {
    /// The cell that gets its outcome. Main has none.
    pub cell: Option<RefId>,
    pub place: Place,
    pub stage: Stage,
}

impl Model for Running {
    ghost use Rattle.std.specs.Coded.{codes};
    ghost use Rattle.jd_task.specs.contracts.place.Place as places;
    ghost use Rattle.jd_model.specs.contracts.life.Stage as stages;
    ghost use Rattle.jd_model.specs.Node.{Running as Row};

    ghost Value = { Row };

    ghost coded = { Prim.hlevel (codes, places.the_row.coded, stages.the_row.coded) };

    ghost view = { λ r. record { cell = r.cell; place = r.place; stage = r.stage } };
}

/// A request of this process that wasn't answered yet.
#[derive(Drop)]
pub struct OpenAsk {
    pub task: TaskId,
    pub cell: RefId,
}

impl Model for OpenAsk {
    ghost use Rattle.jd_model.specs.Node.{OpenAsk as Row};

    ghost Value = { Row };

    ghost view = { λ r. record { task = r.task; cell = r.cell } };
}

/// A request that waits here until its cell is set.
#[derive(Drop)]
pub struct Waiting {
    pub ask: Ask,
    pub cell: RefId,
}

impl Model for Waiting {
    ghost use Rattle.jd_model.specs.Node.{Waiting as Row};

    ghost Value = { Row };

    ghost view = { λ r. record { ask = r.ask; cell = r.cell } };
}

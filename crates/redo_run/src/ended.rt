//! What is left of a build once all its workers have ended.

use crate::of_build::{BuildBrand, JobOf};
use crate::owner::never;
use crossbeam_channel::Sender;
use redo_core::board::Board;
use redo_sync::{JobSource, JobTaker};
use std::marker::Model;
use std::sync::Wait;

/// What is left of a run once all workers have ended.
#[derive(Drop)]
pub(crate) struct EndedBuild<B: BuildBrand> {
    pub board: Board,
    pub source: JobSource<JobOf<B>>,
    pub takers: Vec<JobTaker<JobOf<B>>>,
}

impl<B: BuildBrand> Model for EndedBuild<B> {
    ghost use Rattle.std.specs.Prelude.{List};
    ghost use Rattle.redo_core.specs.Views.{BoardView};
    ghost use Rattle.redo_sync.specs.Relay.{Source, Taker};

    ghost Value = { BoardView × Source × List Taker };

    ghost view = { λ e. (e.board, e.source, e.takers.items) };

    ghost use Rattle.redo_run.specs.inside.Workers.{IsEnded};

    ghost invariant = { λ e. IsEnded B.tree B.request B.limits e.board e.source e.takers.items };
}

/// Sends what is left of a run out of the scope of its threads. The channel has room for it, and its receiver waits
/// outside.
pub(crate) fn hand_out<B: BuildBrand, R: Wait>(
    rt: &R,
    out: &Sender<EndedBuild<B>>,
    ended: EndedBuild<B>,
) {
    if out.send(rt, ended).is_err() {
        never(rt)
    }
}

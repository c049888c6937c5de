//! What the owner of a board and its workers send each other.
//!
//! Only the type of what comes out of a queue is known. So the type names the build, which contracts alone see: no
//! piece is compared with the board when the program runs.

ghost use Rattle.std.specs.Prelude.{◌≡◌};
ghost use Rattle.redo_run.specs.Jobs.{IsWhatIsGiven};

use crate::crew::Advance;
use crate::observer::Observer;
use redo_core::work::{Piece, Work};
use redo_path::Path;
use redo_sync::Numbered;
use std::alloc::AllocError;
use std::marker::{Brand, PhantomData};

/// The build that workers are at, by the tree that it is over, what is requested and its limits. It has no value when
/// the program runs.
pub trait BuildBrand {
    ghost use Rattle.std.specs.Prelude.{List, ℕ};
    ghost use Rattle.redo_step.specs.Limits.{LimitsView};
    ghost use Rattle.redo_tree.specs.Tree.{Tree};

    /// The tree as it was read.
    ghost tree: { Tree };

    /// What is requested.
    ghost request: { List (List ℕ) };

    /// How large it may grow.
    ghost limits: { LimitsView };
}

impl BuildBrand for Brand {
    ghost use Rattle.std.specs.Prelude.{[]};
    ghost use Rattle.redo_tree.specs.Tree.{top};

    ghost tree = { top };

    ghost request = { [] };

    ghost limits = { record { targets = 1; file_bytes = 1 } };
}

/// A job of this build, on its way to a worker. It holds a work, which only a board of this build can have given.
#[derive(Drop)]
pub struct JobOf<B: BuildBrand> {
    work: Work,
    build: PhantomData<B>,
    ghost of_build: { IsWhatIsGiven B.tree B.request B.limits work.given },
}

/// A piece of this build, on its way to the owner.
#[derive(Drop)]
pub(crate) struct PieceOf<B: BuildBrand> {
    piece: Piece,
    build: PhantomData<B>,
    ghost of_build: { IsWhatIsGiven B.tree B.request B.limits piece.given },
}

/// What a worker sends: a piece, or that it ran out of memory.
pub(crate) type Message<B> = Result<PieceOf<B>, AllocError>;

impl<B: BuildBrand> JobOf<B> {
    /// A work of this build.
    pub(crate) fn new(work: Work) -> JobOf<B>
        requires { IsWhatIsGiven B.tree B.request B.limits work.given }
        ensures { result.work ≡ work }
    {
        JobOf {
            work,
            build: PhantomData,
        }
    }
}

impl<B: BuildBrand, O: Observer> Advance<Message<B>, O> for JobOf<B> {
    ghost use Rattle.std.specs.Prelude.{◌≡◌, IfOk};

    ghost comes_to = { λ job message. IfOk message (λ p.
        (p.piece.target ≡ job.work.target) × (p.piece.turn ≡ job.work.turn)) };

    /// Tells the observer, and advances the script.
    fn advance(self, observer: &O) -> Message<B> {
        let JobOf { work, build: _ } = self;
        observer.taken_up(work.target(), work.turn());
        let piece = work.advance()?;
        Ok(PieceOf {
            piece,
            build: PhantomData,
        })
    }
}

impl<B: BuildBrand> PieceOf<B> {
    /// The piece, which is of this build.
    pub fn into_piece(self) -> Piece
        ensures piece { result ≡ self.piece }
        ensures of_build { IsWhatIsGiven B.tree B.request B.limits result.given }
    {
        let PieceOf { piece, build: _ } = self;
        piece
    }
}

/// A relay tells jobs apart by the target and turn of their works.
impl<B: BuildBrand> Numbered for JobOf<B> {
    ghost number = { λ j. (j.work.target, j.work.turn) };

    fn target(&self) -> &Path {
        self.work.target()
    }

    fn turn(&self) -> u64 {
        self.work.turn()
    }
}

//! A build as its board has it: what it is given, and the cells in which its decided targets are published.
ghost use Rattle.std.specs.Prelude.{◌≡◌, ◌<◌, IfOk};
ghost use Rattle.std.specs.Arc.{arc_value};

use crate::fact::Fact;
use crate::given::Given;
use redo_sync::{Cells, Known};
use std::alloc::{AllocError, Global};
use std::marker::Model;
use std::sync::Arc;

/// How many cells are made at a time: few enough that a build of three targets doesn't pay for 65,536.
const BLOCK: usize = 1_024;
/// Enough blocks for 65,536 targets, the most that a limit allows.
const BLOCKS: usize = 64;

/// The cells of targets whose numbers follow each other.
#[derive(Drop)]
struct Block {
    cells: Arc<Cells<Fact>>,
}

impl Model for Block {
    ghost use Rattle.std.specs.Prelude.{◌≡◌, List, ℕ, length};
    ghost use Rattle.std.specs.Arc.{arc_value};

    ghost Value = { List ℕ };

    ghost view = { λ b. arc_value b.cells };

    ghost invariant = { λ b. length (arc_value b.cells) ≡ 1024 };
}

/// What a build is given, and a cell for each target, by its number in order of first sight. Works, pieces and facts
/// share what is given; the cells are apart from it, as the facts in them hold it too.
#[derive(Drop)]
pub(crate) struct Build {
    given: Arc<Given>,
    blocks: Arc<Cells<Block>>,
    alloc: Global,
}

impl Model for Build {
    ghost use Rattle.std.specs.Prelude.{◌≡◌, length};
    ghost use Rattle.std.specs.Arc.{arc_value};
    ghost use Rattle.redo_rules.specs.Build.{GivenView};

    ghost Value = { GivenView };

    ghost view = { λ b. arc_value b.given };

    ghost invariant = { λ b. length (arc_value b.blocks) ≡ 64 };
}

impl Build {
    /// A build that is given this, in which nothing is decided.
    pub(crate) fn new(alloc: Global, given: Arc<Given>) -> Result<Build, AllocError>
        ensures { IfOk result (λ b. b ≡ arc_value given) }
    {
        let blocks = Cells::new(alloc, BLOCKS)?;
        Ok(Build {
            given,
            blocks,
            alloc,
        })
    }

    /// What the build is given.
    pub(crate) fn given(&self) -> &Given
        ensures { result.now ≡ self.now }
    {
        &self.given
    }

    /// What the build is given, for a work or a fact to hold.
    pub(crate) fn share(&self) -> Result<Arc<Given>, AllocError>
        ensures { IfOk result (λ g. arc_value g ≡ self.now) }
    {
        Ok(Arc::try_clone(&self.given)?)
    }

    /// Publishes a decided target, by its number.
    pub(crate) fn publish(&self, number: usize, fact: Fact) -> Result<Known<Fact>, AllocError>
        requires { number < self.now.limits.targets }
        ensures { IfOk result (λ known. known.value ≡ fact) }
    {
        let most = self.given.limits().targets() as usize;
        prove!(number < most && most <= BLOCK * BLOCKS);
        let block = self.block(number / BLOCK)?;
        match Cells::publish(&block.read().cells, number % BLOCK, fact) {
            Ok(known) => Ok(known),
            Err((_fact, error)) => Err(error),
        }
    }

    /// A block of cells, made when it is first needed.
    fn block(&self, index: usize) -> Result<Known<Block>, AllocError>
        requires { index < 64 }
    {
        if let Some(block) = Cells::look(&self.blocks, index)? {
            return Ok(block);
        }
        let cells = Cells::new(self.alloc, BLOCK)?;
        match Cells::publish(&self.blocks, index, Block { cells }) {
            Ok(block) => Ok(block),
            Err((_block, error)) => Err(error),
        }
    }
}

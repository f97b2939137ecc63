//! What one pipeline has.

ghost use Rattle.std.specs.Prelude.{◌≡◌, IfOk, option_copied};
ghost use Rattle.pipelines.specs.Table.{blank_pipeline};

use crate::Listed;
use containers::Exact;
use spatial_tree::Moves;
use std::alloc::{AllocError, Global};
use wr_geom::NoMemory;

/// What one pipeline has: perhaps a list, and the positions and properties that move its nodes.
#[derive(Drop)]
pub struct Pipeline {
    pub(crate) listed: Option<Listed>,
    pub(crate) moves: Moves,
}

impl Pipeline {
    /// Neither a list nor a position nor a property. It takes no memory.
    pub fn blank(alloc: Global) -> Pipeline
        ensures { result ≡ blank_pipeline }
    {
        Pipeline {
            listed: None,
            moves: Moves::new(alloc),
        }
    }

    /// Its list, where it has one.
    pub fn listed(&self) -> Option<&Listed>
        ensures { option_copied result ≡ self.now.listed }
    {
        self.listed.as_ref()
    }

    /// Its positions and properties.
    pub fn moves(&self) -> &Moves
        ensures { result.now ≡ self.now.moves }
    {
        &self.moves
    }

    fn share(&self) -> Result<Pipeline, AllocError>
        ensures { IfOk result (λ pipeline. pipeline ≡ self.now) }
    {
        let listed = match &self.listed {
            None => None,
            Some(listed) => match listed.share() {
                Ok(listed) => Some(listed),
                Err(_) => return Err(AllocError),
            },
        };
        let moves = self.moves.clone()?;
        Ok(Pipeline { listed, moves })
    }
}

impl Clone for Pipeline {
    ghost use Rattle.std.specs.Prelude.{◌≡◌};

    ghost is_clone = { λ x y. y ≡ x };

    fn clone(&self) -> Result<Pipeline, AllocError> {
        self.share()
    }
}

impl Exact for Pipeline {
    ghost exact = { λ x y e. e };
}

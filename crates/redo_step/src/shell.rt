//! What runs a script's commands.

use crate::answers::Answers;
use crate::scene::Scene;

/// What commands go by: the scene and the answers.
#[derive(Drop)]
pub(crate) struct Shell<'s, 'a, A: Answers> {
    pub(crate) scene: Scene<'s>,
    pub(crate) answers: &'a A,
}

// Plans with a repeated part.

use tl_syntax::Actions;

/// A plan with a part that is repeated for ever after its first part.
#[derive(Drop)]
pub struct LoopPlan {
    /// The actions of the first part, which may have none.
    pub stem: Actions,
    /// Those of the repeated part. A file has one at least.
    pub cycle: Actions,
}

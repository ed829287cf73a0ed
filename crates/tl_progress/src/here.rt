// Where a call reads formulas.
ghost use Rattle.std.specs.Prelude.{◌≡◌};
ghost use Rattle.tl_progress.specs.CallsHere.{truths_in, residuals_in};

use crate::known::WorkedOut;
use std::alloc::Global;
use tl_nodes::Nodes;
use tl_world::{Task, World};

/// Where a call reads formulas: in a world of a task, with what it has worked out there.
#[derive(Clone, Copy)]
pub(crate) struct Here<'t, 'w, 'k> {
    /// Where memory comes from.
    pub alloc: Global,
    /// The task.
    pub task: &'t Task,
    /// The world.
    pub world: &'w World,
    /// What is known of numbers whose trees have no free variable, where something is.
    pub known: Option<&'k WorkedOut>,
}

/// Formulas by their numbers, and where a call reads them.
#[derive(Clone, Copy)]
pub(crate) struct FormulasHere<'h, 't, 'w, 'k, 'n> {
    /// Where they are read.
    pub here: &'h Here<'t, 'w, 'k>,
    /// The formulas.
    pub nodes: &'n Nodes,
}

impl Here<'_, '_, '_> {
    /// The truth of a number's tree, where it is known.
    #[inline(always)]
    pub fn known_truth(&self, at: usize) -> Option<bool>
        ensures { result ≡ truths_in self.now.known at }
    {
        match self.known {
            Some(known) => match known.truths.get(&at) {
                Some(truth) => Some(*truth),
                None => None,
            },
            None => None,
        }
    }

    /// The number of what has to hold next for a number's tree, where it is known.
    #[inline(always)]
    pub fn known_residual(&self, at: usize) -> Option<usize>
        ensures { result ≡ residuals_in self.now.known at }
    {
        match self.known {
            Some(known) => match known.residuals.get(&at) {
                Some(number) => Some(*number),
                None => None,
            },
            None => None,
        }
    }
}

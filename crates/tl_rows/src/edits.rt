// Rows in runs with one more, and without one of them.
ghost use Rattle.std.specs.List.{insert, remove};
ghost use Rattle.std.specs.Prelude.{◌≡◌, ◌<◌, ◌≤◌, length, IfOk};

use crate::runs::Runs;
use crate::shared::MOST;
use std::alloc::Global;
use tl_syntax::{NoMemory, Value};

impl Runs {
    /// The rows with one more at place `k`.
    pub(crate) fn with(&self, alloc: Global, k: usize, row: &[Value]) -> Result<Runs, NoMemory>
        requires { k ≤ length self.now }
        ensures { IfOk result (λ r. r ≡ insert self.now k row.now) }
    {
        if let Some(rows) = self.uncut()
            && rows.len() < MOST
            && rows.takes(row.len())
        {
            return Ok(Runs::of_list(alloc, rows.with(alloc, k, row)?));
        }
        let mut out = self.with_room(alloc)?;
        out.push_rows(alloc, self, 0, k)?;
        out.push(alloc, row)?;
        out.push_rows(alloc, self, k, self.len())?;
        Ok(out)
    }

    /// The rows without that at place `k`.
    pub(crate) fn without(&self, alloc: Global, k: usize) -> Result<Runs, NoMemory>
        requires { k < length self.now }
        ensures { IfOk result (λ r. r ≡ remove self.now k) }
    {
        if let Some(rows) = self.uncut() {
            return Ok(Runs::of_list(alloc, rows.without(alloc, k)?));
        }
        let count = self.len();
        let mut out = self.with_room(alloc)?;
        out.push_rows(alloc, self, 0, k)?;
        out.push_rows(alloc, self, k + 1, count)?;
        Ok(out)
    }
}

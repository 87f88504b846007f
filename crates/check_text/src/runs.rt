//! Runs of consecutive rows of one switch.

ghost use Rattle.std.specs.Prelude.{◌<◌, ◌≤◌, length, map, take, IfOk};
ghost use Rattle.check_text.specs.Runs.{AreRuns, IsRun};

use an_base::row::Row;
use std::alloc::{AllocError, Global};

// The number of rows at the front that belong to one switch.
fn run_len(rows: &[Row]) -> usize
    requires { 0 < length rows.now }
    ensures some { 0 < result }
    ensures most { result ≤ length rows.now }
    ensures run { IsRun (take result rows.now) }
{
    let first = &rows[0];
    let at = first.at;
    let mut len = 0usize;
    'same: for row in rows {
        if row.at != at {
            return len;
        }
        len += 1;
    }
    len
}

// The runs of rows. It reads each row once.
pub(crate) fn runs_of(alloc: Global, rows: &[Row]) -> Result<Vec<&[Row]>, AllocError>
    ensures { IfOk result (λ runs. AreRuns rows.now (map (λ run. run.now) runs.items)) }
{
    let mut runs = Vec::new(alloc);
    let mut rest = rows;
    'runs: while !rest.is_empty() {
        let (run, behind) = rest.split_at(run_len(rest));
        runs.push(run)?;
        rest = behind;
    }
    Ok(runs)
}

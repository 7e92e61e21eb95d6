// A row of a ring: at most two runs of cells, beside the body.
ghost use Rattle.std.specs.Prelude.{◌≡◌, length};
ghost use Rattle.ringlists.specs.Lists.{Listed};
ghost use Rattle.ringruns.specs.Runs.{InCells};
ghost use Rattle.ringrows.specs.Rows.{row_places};
ghost use Rattle.ringrows.specs.Room.{RowFits};

use ringlists::run;
use ringruns::Runs;

// How many cells of both runs are walkable.
pub fn count_row(cells: &[u8], runs: Runs) -> usize
    requires { InCells (length cells.now) runs }
    ensures { result ≡ length (row_places cells.now runs) }
{
    let first = run::count_run(cells, runs.first, runs.before);
    first + run::count_run(cells, runs.second, runs.after)
}

// Lists the walkable cells of both runs behind used entries; answers how many are used then.
pub fn list_row(cells: &[u8], runs: Runs, out: &mut [u32], used: usize) -> usize
    requires { RowFits cells.now runs used (length out.old) }
    ensures { Listed (row_places cells.now runs) out.old used out.new result }
{
    let middle = run::list_run(cells, runs.first, runs.before, out, used);
    run::list_run(cells, runs.second, runs.after, out, middle)
}

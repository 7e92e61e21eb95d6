// Runs of cells, one after another in the map's bytes: how many are walkable, and their places as a list.
ghost use Rattle.std.specs.Prelude.{◌≡◌, ◌+◌, ◌≤◌, length};
ghost use Rattle.ringlists.specs.Places.{open_place, open_places};
ghost use Rattle.ringlists.specs.Lists.{Puts, RunFits, Listed};

// How many of count cells, from index from on, are walkable.
pub fn count_run(cells: &[u8], from: usize, count: usize) -> usize
    requires { from + count ≤ length cells.now }
    ensures { result ≡ length (open_places cells.now from count) }
{
    let mut total = 0;
    // Stays: added up without a branch. The count of what a filter keeps takes half as long again where walls are random.
    for &byte in &cells[from..from + count] {
        total += usize::from(byte == 1);
    }
    total
}

// Lists a cell's place behind used entries, if it is walkable; answers how many entries are used then.
fn put(out: &mut [u32], used: usize, place: usize, byte: u8) -> usize
    requires { Puts (open_place byte place) place used (length out.old) }
    ensures { Listed (open_place byte place) out.old used out.new result }
{
    if byte != 1 {
        return used;
    }
    out[used] = place as u32;
    used + 1
}

// Lists the walkable ones of count cells, from index from on, behind used entries; answers how many are used then.
pub fn list_run(cells: &[u8], from: usize, count: usize, out: &mut [u32], used: usize) -> usize
    requires { RunFits cells.now from count used (length out.old) }
    ensures { Listed (open_places cells.now from count) out.old used out.new result }
{
    let mut end = used;
    for (k, &byte) in cells[from..from + count].iter().enumerate() {
        end = put(out, end, from + k, byte);
    }
    end
}

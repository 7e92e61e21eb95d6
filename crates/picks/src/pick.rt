// Which of the eight moves from a cell need a look. Each move has its number, 0 to 7.
ghost use Rattle.std.specs.Prelude.{◌≡◌, ◌<◌, length};
ghost use Rattle.picks.specs.Picks.{one, within, Picked, Kept, is_near, is_inside, Around, Edge};

// 1 where a column or a row, counted from 1, is in the map, else 0.
fn within(place: usize, size: usize) -> usize
    ensures { result ≡ one (within place size) }
{
    if place < 1 {
        return 0;
    }
    if place > size { 0 } else { 1 }
}

// The list with move k at its end, where it is picked; answers how many moves are listed then.
fn keep(list: &mut [u8; 9], count: usize, k: usize, picked: bool) -> usize
    requires { (count < 9) × (k < 9) × (length list.old ≡ 9) }
    ensures { Kept list.old count k picked list.new result }
{
    if !picked {
        return count;
    }
    list[count] = k as u8;
    count + 1
}

// Lists the moves to states above a number, from a cell with eight neighbours; answers how many there are.
pub fn near(
    states: &[u16],
    width: usize,
    index: usize,
    steps: &[usize; 8],
    low: u16,
    list: &mut [u8; 9],
) -> usize
    requires { Around states.now width index steps.now × (length list.old ≡ 9) }
    ensures { Picked (is_near states.now width index steps.now low) 8 list.new result }
{
    let mut count: usize = 0;
    for (k, &step) in steps.iter().enumerate() {
        count = keep(list, count, k, low < states[index + step - width - 1]);
    }
    count
}

// Lists the moves that stay in the map, from a cell at its edge; answers how many there are.
pub fn edge(
    width: usize,
    height: usize,
    x: usize,
    y: usize,
    over: &[usize; 8],
    down: &[usize; 8],
    list: &mut [u8; 9],
) -> usize
    requires { Edge x y over.now down.now × (length list.old ≡ 9) }
    ensures { Picked (is_inside width height x y over.now down.now) 8 list.new result }
{
    let mut count: usize = 0;
    // Stays: the number k is what is listed, and two tables are read at it.
    for k in 0..8 {
        list[count] = k as u8;
        count += within(x + over[k], width) * within(y + down[k], height);
    }
    count
}

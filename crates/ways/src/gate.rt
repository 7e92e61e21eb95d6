// Gates: 32,767 shuts, -32,768 lets a lane through.
ghost use Rattle.std.specs.Prelude.{◌≡◌, ◌*◌, ◌%◌};
ghost use Rattle.ways.specs.Row as spec;
ghost use Rattle.ways.specs.Buffers.{Gates};

// Sixteen shut gates, then sixteen open ones: one for each lane that a cell can have.
pub fn gates() -> [i16; 32]
    ensures { Gates result }
{
    let mut table = [32767i16; 32];
    table[16..].fill(-32768);
    table
}

// The flags of a sweep's two diagonals, moved down to the bits 2 and 4.
pub fn turned(flag: u8, down: bool) -> u8
    ensures { result ≡ spec.turned down flag }
{
    if down { flag } else { flag / 4 }
}

// Where the gates of the lowest bit start in the table.
pub fn place(bits: u8) -> usize
    ensures { result ≡ bits % 2 * 16 }
{
    usize::from(bits % 2) * 16
}

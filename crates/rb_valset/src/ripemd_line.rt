//! The two lines of steps that a block goes through.
ghost use Rattle.std.specs.Prelude.{◌≡◌, ◌*◌, ◌<◌, length, IsTrue};
ghost use Rattle.rb_valset.specs.Ripemd.{after, are_places, mix, step, word_at};

/// A line: for each of its steps the word that it takes and by how much it rotates, for each of its
/// five rounds of 16 steps its function and its constant.
#[derive(Drop)]
pub struct Line {
    pub places: [u8; 80],
    pub shifts: [u8; 80],
    pub functions: [u8; 5],
    pub constants: [u32; 5],
}

pub const LEFT: Line = Line {
    places: [
        0, 1, 2, 3, 4, 5, 6, 7, 8, 9, 10, 11, 12, 13, 14, 15, 7, 4, 13, 1, 10, 6, 15, 3, 12, 0, 9,
        5, 2, 14, 11, 8, 3, 10, 14, 4, 9, 15, 8, 1, 2, 7, 0, 6, 13, 11, 5, 12, 1, 9, 11, 10, 0, 8,
        12, 4, 13, 3, 7, 15, 14, 5, 6, 2, 4, 0, 5, 9, 7, 12, 2, 10, 14, 1, 3, 8, 11, 6, 15, 13,
    ],
    shifts: [
        11, 14, 15, 12, 5, 8, 7, 9, 11, 13, 14, 15, 6, 7, 9, 8, 7, 6, 8, 13, 11, 9, 7, 15, 7, 12,
        15, 9, 11, 7, 13, 12, 11, 13, 6, 7, 14, 9, 13, 15, 14, 8, 13, 6, 5, 12, 7, 5, 11, 12, 14,
        15, 14, 15, 9, 8, 9, 14, 5, 6, 8, 6, 5, 12, 9, 15, 5, 11, 6, 8, 13, 12, 5, 12, 13, 14, 11,
        8, 5, 6,
    ],
    functions: [0, 1, 2, 3, 4],
    constants: [
        0x0000_0000,
        0x5a82_7999,
        0x6ed9_eba1,
        0x8f1b_bcdc,
        0xa953_fd4e,
    ],
};

pub const RIGHT: Line = Line {
    places: [
        5, 14, 7, 0, 9, 2, 11, 4, 13, 6, 15, 8, 1, 10, 3, 12, 6, 11, 3, 7, 0, 13, 5, 10, 14, 15, 8,
        12, 4, 9, 1, 2, 15, 5, 1, 3, 7, 14, 6, 9, 11, 8, 12, 2, 10, 0, 4, 13, 8, 6, 4, 1, 3, 11,
        15, 0, 5, 12, 2, 13, 9, 7, 10, 14, 12, 15, 10, 4, 1, 5, 8, 7, 6, 2, 13, 14, 0, 3, 9, 11,
    ],
    shifts: [
        8, 9, 9, 11, 13, 15, 15, 5, 7, 7, 8, 11, 14, 14, 12, 6, 9, 13, 15, 7, 12, 8, 9, 11, 7, 7,
        12, 7, 6, 15, 13, 11, 9, 7, 15, 11, 8, 6, 6, 14, 12, 13, 5, 14, 13, 13, 7, 5, 15, 5, 8, 11,
        14, 14, 6, 14, 6, 9, 12, 9, 12, 5, 15, 8, 8, 5, 12, 9, 12, 5, 14, 6, 8, 13, 6, 5, 15, 13,
        11, 11,
    ],
    functions: [4, 3, 2, 1, 0],
    constants: [
        0x50a2_8be6,
        0x5c4d_d124,
        0x6d70_3ef3,
        0x7a6d_76e9,
        0x0000_0000,
    ],
};

/// The variables after the steps of a line on a block.
pub fn line_after(line: &Line, hash: [u32; 5], block: &[u8]) -> [u32; 5]
    requires block { length block.now ≡ 64 }
    requires places { IsTrue (are_places line.now.places) }
    ensures { result ≡ after line.now block.now hash 80 }
{
    let mut variables = hash;
    for number in 0..80 {
        take_step(&mut variables, line, block, number);
    }
    variables
}

/// Takes a step of a line on a block.
fn take_step(variables: &mut [u32; 5], line: &Line, block: &[u8], number: usize)
    requires block { length block.now ≡ 64 }
    requires places { IsTrue (are_places line.now.places) }
    requires number { number < 80 }
    ensures { variables.new ≡ step line.now block.now number variables.old }
{
    let round = number / 16;
    let [a, b, c, d, e] = *variables;
    let mixed = mix(line.functions[round], b, c, d);
    let word = word_at(block, line.places[number]);
    let sum = a
        .wrapping_add(mixed)
        .wrapping_add(word)
        .wrapping_add(line.constants[round]);
    let next = sum
        .rotate_left(u32::from(line.shifts[number]))
        .wrapping_add(e);
    *variables = [e, next, b, c.rotate_left(10), d];
}

/// The function of a number on three variables.
fn mix(function: u8, x: u32, y: u32, z: u32) -> u32
    ensures { result ≡ mix function x y z }
{
    match function {
        0 => x ^ y ^ z,
        1 => (x & y) | (!x & z),
        2 => (x | !y) ^ z,
        3 => (x & z) | (y & !z),
        _ => x ^ (y | !z),
    }
}

/// The word of a block at a place.
fn word_at(block: &[u8], place: u8) -> u32
    requires block { length block.now ≡ 64 }
    requires place { place < 16 }
    ensures { result ≡ word_at block.now (4 * place) }
{
    let at = 4 * usize::from(place);
    u32::from_le_bytes([block[at], block[at + 1], block[at + 2], block[at + 3]])
}

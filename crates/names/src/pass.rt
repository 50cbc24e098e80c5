// How a search passes the entries that have another byte at a place than the one it looks for.
ghost use Rattle.std.specs.Prelude.{◌≡◌, ◌+◌, ◌/◌, ◌≤◌, ◌<◌, length};
ghost use Rattle.basics.specs.Scan.{all};
ghost use Rattle.names.specs.Pass.{other_at, Others, NextWith};

// Whether each of n entries from i on has another byte at the place. No early exit: where n is known, all of them are tested at once.
fn others(names: &[u8], place: usize, byte: u8, i: usize, n: usize) -> bool
    requires { (place < 32) × (i + n ≤ length names.now / 32) }
    ensures { result ≡ all n (other_at names.now place byte i) }
{
    let mut other = true;
    for entry in &names.as_chunks::<32>().0[i..i + n] {
        other &= entry[place] != byte;
    }
    other
}

// The entry to go on from, where entries from i on are passed four at a time while each of the four has another byte at the place.
fn pass_fours(names: &[u8], place: usize, byte: u8, i: usize) -> usize
    requires { (place < 32) × (i ≤ length names.now / 32) }
    ensures { Others names.now place byte i result }
{
    // By hand: where it stops is what is told, and by step_by that would be worked out a second time.
    let mut r = i;
    while r + 4 <= names.len() / 32 {
        if !others(names, place, byte, r, 4) {
            return r;
        }
        r += 4;
    }
    r
}

// The first entry from i on that has the byte at the place; how many entries there are where none has.
pub fn next_with(names: &[u8], place: usize, byte: u8, i: usize) -> usize
    requires { (place < 32) × (i ≤ length names.now / 32) }
    ensures { NextWith names.now place byte i result }
{
    for r in pass_fours(names, place, byte, i)..names.len() / 32 {
        if names[r * 32 + place] == byte {
            return r;
        }
    }
    names.len() / 32
}

// Where the sets of the ports lie in the settings: for each port in roll order its debug set, then its flags.
#![tactic(auto)]

ghost use Rattle.std.specs.Prelude.{◌≡◌, ◌≤◌, ◌<◌};
ghost use Rattle.layout.specs.Layout.{names_of, list_of, size_of, widths_of, port_words, first_of, total_words as words_of, set_place as place_of};
ghost use Rattle.layout.specs.AtMost.{AtMost};

pub mod change;

// The two sets of a port.
#[derive(Clone, Copy, PartialEq, Eq)]
pub enum Set {
    Debug,
    Flags,
}

// A number for each set: how many bits it has, or how many words.
#[derive(Clone, Copy)]
pub struct Sizes {
    pub debug: usize,
    pub flags: usize,
}

// The number of the set.
pub fn size_of(sizes: Sizes, set: Set) -> usize
    ensures { result ≡ size_of sizes set }
{
    match set {
        Set::Debug => {
            return sizes.debug;
        }
        Set::Flags => {
            return sizes.flags;
        }
    }
}

// The names of the set.
pub fn names_of<'a>(set: Set, debug: &'a [u8], flags: &'a [u8]) -> &'a [u8]
    ensures { result.now ≡ list_of (names_of debug.now flags.now) set }
{
    match set {
        Set::Debug => {
            return debug;
        }
        Set::Flags => {
            return flags;
        }
    }
}

// How many words sets of these sizes take.
pub fn widths(sizes: Sizes) -> Sizes
    ensures { result ≡ widths_of sizes }
{
    Sizes {
        debug: bits::words_for(sizes.debug),
        flags: bits::words_for(sizes.flags),
    }
}

// The words of one port.
fn port_words(width: Sizes) -> usize
    requires { AtMost 16 width }
    ensures { result ≡ port_words width }
{
    width.debug + width.flags
}

// The first word of a set in those of its port.
fn first_word(width: Sizes, set: Set) -> usize
    ensures { result ≡ first_of width set }
{
    match set {
        Set::Debug => {
            return 0;
        }
        Set::Flags => {
            return width.debug;
        }
    }
}

// The words of all ports.
pub fn total_words(ports: usize, width: Sizes) -> usize
    requires { (ports ≤ 64) × AtMost 16 width }
    ensures { result ≡ words_of ports width }
{
    ports * port_words(width)
}

// The first word of a set of the port at a position.
pub fn set_place(ports: usize, width: Sizes, position: usize, set: Set) -> usize
    requires { (position < ports) × (ports ≤ 64) × AtMost 16 width }
    ensures { result ≡ place_of ports width position set }
{
    total_words(position, width) + first_word(width, set)
}

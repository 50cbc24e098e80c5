// The name lists of the sets.
ghost use Rattle.std.specs.Prelude.{◌≡◌};
ghost use Rattle.entries.specs.Entry.{count as count_of};
ghost use Rattle.layout.specs.Layout.{names_of, of_lists};
ghost use Rattle.boxes.specs.Rule.{lists_right};

use entries::count;
use layout::Sizes;

// How many bits each set has.
pub fn sizes(debug: &[u8], flags: &[u8]) -> Sizes
    ensures { result ≡ of_lists count_of (names_of debug.now flags.now) }
{
    Sizes {
        debug: count(debug),
        flags: count(flags),
    }
}

// Whether each list keeps the rule of name lists.
pub fn lists_right(debug: &[u8], flags: &[u8]) -> bool
    ensures { result ≡ lists_right (names_of debug.now flags.now) }
{
    if !names::names_right(debug) {
        return false;
    }
    names::names_right(flags)
}

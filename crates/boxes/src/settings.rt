// The rule of the settings.
ghost use Rattle.std.specs.Prelude.{◌≡◌, ◌≤◌, ◌<◌, length};
ghost use Rattle.layout.specs.Layout.{widths_of, total_words as words_of, set_at};
ghost use Rattle.layout.specs.AtMost.{AtMost};
ghost use Rattle.boxes.specs.Settings.{set_clear, port_clear, settings_right};

use layout::{Set, Sizes, set_place, size_of, total_words, widths};

// The words of a set of the port at a position.
pub fn set_at(settings: &[u32], ports: usize, width: Sizes, position: usize, set: Set) -> &[u32]
    requires position_lt_ports { (position < ports) × (ports ≤ 64) × AtMost 16 width }
    requires settings_len { length settings.now ≡ words_of ports width }
    ensures { result.now ≡ set_at settings.now ports width position set }
{
    let at = set_place(ports, width, position, set);
    let end = at + size_of(width, set);
    &settings[at..end]
}

// Whether a set of N bits has no bit at or past N.
fn set_clear(settings: &[u32], ports: usize, sizes: Sizes, position: usize, set: Set) -> bool
    requires position_lt_ports { (position < ports) × (ports ≤ 64) × AtMost 512 sizes }
    requires settings_len { length settings.now ≡ words_of ports (widths_of sizes) }
    ensures { result ≡ set_clear settings.now ports sizes position set }
{
    let held = set_at(settings, ports, widths(sizes), position, set);
    bits::none_from(held, size_of(sizes, set))
}

// Whether every set of a port is so.
fn port_clear(settings: &[u32], ports: usize, sizes: Sizes, position: usize) -> bool
    requires position_lt_ports { (position < ports) × (ports ≤ 64) × AtMost 512 sizes }
    requires settings_len { length settings.now ≡ words_of ports (widths_of sizes) }
    ensures { result ≡ port_clear settings.now ports sizes position }
{
    if !set_clear(settings, ports, sizes, position, Set::Debug) {
        return false;
    }
    set_clear(settings, ports, sizes, position, Set::Flags)
}

// Whether the settings hold exactly the words of all ports, with no bit at or past N in any set.
pub fn settings_right(settings: &[u32], ports: usize, sizes: Sizes) -> bool
    requires { (ports ≤ 64) × AtMost 512 sizes }
    ensures { result ≡ settings_right settings.now ports sizes }
{
    if settings.len() != total_words(ports, widths(sizes)) {
        return false;
    }
    for position in 0..ports {
        if !port_clear(settings, ports, sizes, position) {
            return false;
        }
    }
    true
}

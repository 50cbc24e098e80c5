// What C links: each function of the crate ethnl under its name, with its contract.
#![tactic(auto)]

ghost use Rattle.std.specs.Prelude.{◌≡◌, length};
ghost use Rattle.bit_name.specs.Find.{name_found};
ghost use Rattle.normal.specs.Normal.{normalised};
ghost use Rattle.boxes.specs.Box.{box_of};
ghost use Rattle.box_fault.specs.Fault.{box_fault};
ghost use Rattle.handler.specs.Bytes.{stored_of, bytes_outcome};
ghost use Rattle.ethnl.specs.Exported.{Normalise, Find, CheckBox, Handle};

// Writes the normal form of a bitset's contents to the page. Returns document 01's number, 0 if accepted.
#[unsafe(no_mangle)]
pub extern "C" fn ethnl_normalise(
    contents: &[u8],
    names: &[u8],
    page: &mut [u8],
    written: &mut u64,
) -> u32
    ensures { Normalise (normalised contents.now names.now (length page.old)) page.old page.new written.new result }
{
    ethnl::ethnl_normalise(contents, names, page, written)
}

// Looks for a bit name, which stands without its NUL: leaves the bit, 2^32 - 1 where no entry equals it, and how many entries were compared.
// Returns document 01's number, 0 where the list breaks no rule.
#[unsafe(no_mangle)]
pub extern "C" fn ethnl_find(names: &[u8], name: &[u8], found: &mut u32, compared: &mut u64) -> u32
    ensures { Find (name_found names.now name.now) found.new compared.new result }
{
    ethnl::ethnl_find(names, name, found, compared)
}

// Tells which part of a box breaks a rule first, and where: returns the part's number, 0 if none does, and leaves the offset in it.
#[unsafe(no_mangle)]
pub extern "C" fn ethnl_check_box(
    family: u32,
    admin: u32,
    roll: &[u8],
    debug: &[u8],
    flags: &[u8],
    settings: &[u8],
    offset: &mut u64,
) -> u32
    ensures { CheckBox (box_fault family admin (box_of roll.now debug.now flags.now) settings.now) offset.new result }
{
    ethnl::ethnl_check_box(family, admin, roll, debug, flags, settings, offset)
}

// Takes one message from a datagram, answers it, and keeps the settings, which are the little-endian bytes of their words. Settings that are
// no whole words, or more than any box has, break the box. A dump is answered message by message: the next call takes the place handed back.
#[unsafe(no_mangle)]
pub extern "C" fn ethnl_handle<'a>(
    family: u32,
    admin: u32,
    roll: &[u8],
    debug: &'a [u8],
    flags: &'a [u8],
    settings: &mut [u8],
    datagram: &[u8],
    position: u64,
    place: u64,
    page: &mut [u8],
    kind: &mut u32,
    refusal: &mut u32,
    next: &mut u64,
    next_place: &mut u64,
    written: &mut u64,
)
    ensures { Handle (bytes_outcome (box_of roll.now debug.now flags.now) (stored_of settings.old) (record { family = family; admin = admin; position = position; place = place }) datagram.now (length page.old)) (stored_of settings.old) (stored_of settings.new) page.old page.new kind.new refusal.new next.new next_place.new written.new }
{
    ethnl::ethnl_handle(
        family, admin, roll, debug, flags, settings, datagram, position, place, page, kind,
        refusal, next, next_place, written,
    );
}

// The functions that C calls, as include/ethnl.h declares them: numbers and byte buffers alone. The crate ethnl_c exports them.
#![tactic(auto)]

ghost use Rattle.std.specs.Prelude.{◌≡◌, ◌≤◌, IfSome, length};
ghost use Rattle.bit_name.specs.Find.{bit_told, name_found};
ghost use Rattle.normal.specs.Normal.{normalised};
ghost use Rattle.boxes.specs.Box.{box_of};
ghost use Rattle.box_fault.specs.Fault.{box_fault};
ghost use Rattle.handler.specs.Bytes.{stored_of, bytes_outcome};
ghost use Rattle.ethnl.specs.Exported.{Normalise, Find, CheckBox, Handle};

use box_fault::box_fault;
use boxes::Call;
use handler::bytes::handle_bytes;

// Writes the normal form of a bitset's contents to the page. Returns document 01's number, 0 if accepted.
#[tactic(auto, using(crate::proofs::Laws::normalise_laws))]
pub fn ethnl_normalise(contents: &[u8], names: &[u8], page: &mut [u8], written: &mut u64) -> u32
    ensures { Normalise (normalised contents.now names.now (length page.old)) page.old page.new written.new result }
{
    match normal::normalise(contents, names, page) {
        Err(why) => {
            *written = 0;
            why.number()
        }
        Ok(count) => {
            *written = count as u64;
            0
        }
    }
}

// The bit that is told where no entry equals the name.
pub const NOT_FOUND: u32 = 4294967295;

fn told_bit(bit: Option<usize>) -> u32
    requires { IfSome bit (λ k. k ≤ 4294967295) }
    ensures { result ≡ bit_told bit }
{
    match bit {
        Some(bit) => bit as u32,
        None => NOT_FOUND,
    }
}

// Looks for a bit name, which stands without its NUL: leaves the bit, 2^32 - 1 where no entry equals it, and how many entries were compared.
// Returns document 01's number, 0 where the list breaks no rule.
#[tactic(auto, using(crate::proofs::Laws::find_laws))]
pub fn ethnl_find(names: &[u8], name: &[u8], found: &mut u32, compared: &mut u64) -> u32
    ensures { Find (name_found names.now name.now) found.new compared.new result }
{
    match bit_name::find(names, name) {
        Err(why) => {
            *found = 0;
            *compared = 0;
            why.number()
        }
        Ok(lookup) => {
            *found = told_bit(lookup.bit);
            *compared = lookup.compared as u64;
            0
        }
    }
}

// Tells which part of a box breaks a rule first, and where: returns the part's number, 0 if none does, and leaves the offset in it.
pub fn ethnl_check_box(
    family: u32,
    admin: u32,
    roll: &[u8],
    debug: &[u8],
    flags: &[u8],
    settings: &[u8],
    offset: &mut u64,
) -> u32
    ensures { CheckBox (box_fault family admin (box_of roll.now debug.now flags.now) settings.now) offset.new result }
{
    // C takes 0 for a sound box.
    let Some(fault) = box_fault(family, admin, roll, debug, flags, settings) else {
        *offset = 0;
        return 0;
    };
    let part = fault.part;
    *offset = fault.offset as u64;
    part.number()
}

// Takes one message from a datagram, answers it, and keeps the settings, which are the little-endian bytes of their words. Settings that are
// no whole words, or more than any box has, break the box. A dump is answered message by message: the next call takes the place handed back.
pub fn ethnl_handle<'a>(
    family: u32,
    admin: u32,
    roll: &[u8],
    debug: &'a [u8],
    flags: &'a [u8],
    settings: &mut [u8],
    datagram: &[u8],
    position: u64,
    place: u64,
    page: &mut [u8],
    kind: &mut u32,
    refusal: &mut u32,
    next: &mut u64,
    next_place: &mut u64,
    written: &mut u64,
)
    ensures { Handle (bytes_outcome (box_of roll.now debug.now flags.now) (stored_of settings.old) (record { family = family; admin = admin; position = position; place = place }) datagram.now (length page.old)) (stored_of settings.old) (stored_of settings.new) page.old page.new kind.new refusal.new next.new next_place.new written.new }
{
    let call = Call {
        family,
        admin,
        position: position as usize,
        place: place as usize,
    };
    let answer = handle_bytes(call, roll, debug, flags, settings, datagram, page);
    let answered = answer.kind;
    *kind = answered.number();
    *refusal = answered.refusal();
    *next = answer.next as u64;
    *next_place = answer.place as u64;
    *written = answer.written as u64;
}

// A compact bitset: SIZE, VALUE and, without NOMASK, MASK.
#![tactic(auto)]

ghost use Rattle.std.specs.Prelude.{◌≡◌};
ghost use Rattle.bitset_form.specs.Form.{judged_as};
ghost use Rattle.bitset_compact.specs.Compact.{nomask_reading, masked_reading, compact_reading};

use bits::words_for;
use bitset_form::parts::BitsetParts;
use bitset_form::policies::{MASK, SIZE, VALUE};
use bitset_form::{Form, all_below, cut_at, within};
use netlink::walk::slot_number;
use netlink_attributes::{payload, place};
use refusal::Refusal;
use word_bytes::some_past;

// Under NOMASK: VALUE alone counts.
#[tactic(auto, unfolding(crate::specs::Compact::nomask_reading, bitset_form::specs::Form::judged_as, bitset_form::specs::Form::cut_at, bitset_form::specs::Bitset::mask_of, bitset_form::specs::Bitset::value_of))]
fn judge_nomask(s: &[u8], n: usize, size: usize, parts: BitsetParts) -> Result<Form, Refusal>
    ensures { result ≡ judged_as n (nomask_reading s.now n size parts) }
{
    let value = parts.value;
    let bitmap = payload(s, value.start, value.end);
    if bitmap.len() / 4 < words_for(size) {
        return Err(Refusal::ShortBitmap(place(value.start)));
    }
    if some_past(bitmap, n, size) {
        return Err(Refusal::PastLength(place(value.start)));
    }
    Ok(Form {
        mask: all_below(n),
        value: cut_at(bitmap, size),
    })
}

// Without it: MASK is required, and tells which bits count.
#[tactic(auto, unfolding(crate::specs::Compact::masked_reading, bitset_form::specs::Form::judged_as))]
fn judge_masked(
    s: &[u8],
    nest: usize,
    n: usize,
    size: usize,
    parts: BitsetParts,
) -> Result<Form, Refusal>
    ensures { result ≡ judged_as n (masked_reading s.now nest n size parts) }
{
    let mask = parts.mask;
    if !mask.present {
        return Err(Refusal::MissingIn(MASK, nest));
    }
    let value = parts.value;
    let values = payload(s, value.start, value.end);
    let words = words_for(size);
    if values.len() / 4 < words {
        return Err(Refusal::ShortBitmap(place(value.start)));
    }
    let masks = payload(s, mask.start, mask.end);
    if masks.len() / 4 < words {
        return Err(Refusal::ShortBitmap(place(mask.start)));
    }
    if some_past(masks, n, size) {
        return Err(Refusal::PastLength(place(mask.start)));
    }
    let masked = cut_at(masks, size);
    Ok(Form {
        mask: masked,
        value: within(values, masked),
    })
}

// SIZE and VALUE are required in every compact bitset; `nest` is the place of the bitset.
#[tactic(auto, unfolding(crate::specs::Compact::compact_reading, bitset_form::specs::Form::judged_as))]
pub fn judge_compact(s: &[u8], nest: usize, n: usize, parts: BitsetParts) -> Result<Form, Refusal>
    ensures { result ≡ judged_as n (compact_reading s.now nest n parts) }
{
    let size = parts.size;
    if !size.present {
        return Err(Refusal::MissingIn(SIZE, nest));
    }
    let value = parts.value;
    if !value.present {
        return Err(Refusal::MissingIn(VALUE, nest));
    }
    let bits = slot_number(s, size) as usize;
    let nomask = parts.nomask;
    if nomask.present {
        return judge_nomask(s, n, bits, parts);
    }
    judge_masked(s, nest, n, bits, parts)
}

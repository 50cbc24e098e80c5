// A name written in no more room than it takes, where `put_name` may need a few bytes more.
ghost use Rattle.std.specs.Prelude.{◌≡◌, ◌≤◌, length};
ghost use Rattle.page.specs.Page.{Wrote};
ghost use Rattle.netlink_write.specs.Attributes.{attr, name_bytes};

use crate::headers::put_attribute_header;
use netlink::policy::nul_at;
use netlink_headers::headers::AttributeHeader;
use netlink_headers::lengths::Stated;
use page::bytes::put_filled;

// The bytes before the first NUL, and one NUL.
#[tactic(auto, using(crate::proofs::exact_name::Laws::exact_laws))]
pub fn put_exact_name(page: &mut [u8], kind: u16, name: &[u8]) -> usize
    requires { (length name.now ≤ 256) × (length (attr kind (name_bytes name.now)) ≤ length page.old) }
    ensures { Wrote (attr kind (name_bytes name.now)) page.old page.new result }
{
    let n = nul_at(name);
    // four bytes of header, and the NUL
    let stated = n + 5;
    let step = Stated::of(stated as u32).step().bytes();
    put_filled(
        &mut page[AttributeHeader::SIZE..],
        name,
        n,
        step - AttributeHeader::SIZE,
    );
    put_attribute_header(page, stated as u16, kind);
    step
}

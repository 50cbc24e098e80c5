// The nest of an index and a name, as a port and a BIT have it. Each function writes at the front of the page that it is lent.
#![tactic(auto)]

ghost use Rattle.std.specs.Prelude.{◌≡◌, ◌+◌, ◌≤◌, ◌<◌, eqb, length};
ghost use Rattle.netlink.specs.Policy.{nul_at};
ghost use Rattle.page.specs.Page.{Wrote};
ghost use Rattle.index_name.specs.IndexName.{index_and_name, index_nest};

use netlink_headers::headers::AttributeHeader;
use netlink_write::attributes::{close_nest, put_name, put_number};

const INDEX: u16 = 1;

const NAME: u16 = 2;

// The nest, of any type.
pub fn put_index_nest(page: &mut [u8], kind: u16, index: u32, name: &[u8]) -> usize
    requires { (kind < 16384) × (length name.now ≤ 256) × (length name.now + 20 ≤ length page.old) }
    ensures wrote { Wrote (index_nest kind index name.now) page.old page.new result }
    ensures upper_bound { result ≤ length name.now + 20 }
{
    let contents = put_index_and_name(&mut page[AttributeHeader::SIZE..], index, name);
    close_nest(page, kind, contents).bytes()
}

// What it holds: the index and, where there is one, the name.
fn put_index_and_name(page: &mut [u8], index: u32, name: &[u8]) -> usize
    requires { (length name.now ≤ 256) × (length name.now + 16 ≤ length page.old) }
    ensures wrote { Wrote (index_and_name index name.now) page.old page.new result }
    ensures upper_bound { result ≤ length name.now + 16 }
{
    put_number(page, INDEX, index);
    if is_unnamed(name) {
        return 8;
    }
    let m = put_name(&mut page[8..], NAME, name);
    m + 8
}

// Whether no byte stands before the first NUL.
fn is_unnamed(name: &[u8]) -> bool
    ensures { result ≡ eqb (nul_at name.now) 0 }
{
    if name.len() == 0 {
        return true;
    }
    name[0] == 0
}

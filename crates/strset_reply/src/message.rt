// The message: its two headers, the port where one is named, the sets.
ghost use Rattle.std.specs.Prelude.{◌≡◌, ◌+◌, ◌≤◌, length};
ghost use Rattle.entries.specs.Entry.{count as count_of};
ghost use Rattle.layout.specs.Layout.{names_of};
ghost use Rattle.page.specs.Page.{Wrote};
ghost use Rattle.strset_reply.specs.Message.{strset_content_of, port_nest, strset_attributes, strset_reply};

use crate::sets::put_sets_nest;
use index_name::put_index_nest;
use reply::message::{Heading, close_message};
use strset_request::list::Sets;

// The type of the port's nest at the top level.
const HEADER: u16 = 1;

// The port's nest, where one is named.
fn put_port(page: &mut [u8], named: bool, index: u32, name: &[u8]) -> usize
    requires { (length name.now ≤ 16) × (36 ≤ length page.old) }
    ensures wrote { Wrote (port_nest named index name.now) page.old page.new result }
    ensures upper_bound { result ≤ 36 }
{
    if !named {
        return 0;
    }
    put_index_nest(page, HEADER, index, name)
}

// The port's nest, then STRINGSETS.
fn put_attributes<'a>(
    page: &mut [u8],
    named: bool,
    index: u32,
    name: &[u8],
    counts: bool,
    debug: &'a [u8],
    flags: &'a [u8],
    sets: Sets,
) -> usize
    requires name_len_bound { (length name.now ≤ 16) × (count_of debug.now ≤ 512) × (count_of flags.now ≤ 512) × (36 ≤ length page.old) }
    requires counts_in_bounds { length (strset_attributes (strset_content_of named index name.now (names_of debug.now flags.now) sets counts)) ≤ length page.old }
    ensures { Wrote (strset_attributes (strset_content_of named index name.now (names_of debug.now flags.now) sets counts)) page.old page.new result }
{
    let port = put_port(page, named, index, name);
    let all = put_sets_nest(&mut page[port..], counts, debug, flags, sets);
    port + all
}

// The reply, where the page has room for it.
pub fn put_strset_reply<'a>(
    page: &mut [u8],
    h: Heading,
    named: bool,
    index: u32,
    name: &[u8],
    counts: bool,
    debug: &'a [u8],
    flags: &'a [u8],
    sets: Sets,
) -> usize
    requires name_len_bound { (length name.now ≤ 16) × (count_of debug.now ≤ 512) × (count_of flags.now ≤ 512) × (56 ≤ length page.old) }
    requires counts_in_bounds { length (strset_reply h (strset_content_of named index name.now (names_of debug.now flags.now) sets counts)) ≤ length page.old }
    ensures wrote { Wrote (strset_reply h (strset_content_of named index name.now (names_of debug.now flags.now) sets counts)) page.old page.new result }
    ensures upper_bound { (result ≤ 53356) × (result ≤ length page.old) }
{
    let attributes = put_attributes(
        &mut page[20..],
        named,
        index,
        name,
        counts,
        debug,
        flags,
        sets,
    );
    close_message(page, h, attributes)
}

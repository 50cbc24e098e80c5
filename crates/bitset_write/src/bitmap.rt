// VALUE and MASK: an attribute whose payload is words.
ghost use Rattle.std.specs.Prelude.{◌≡◌, ◌+◌, ◌*◌, ◌≤◌, length};
ghost use Rattle.word_bytes.specs.Bytes.{bytes_of};
ghost use Rattle.page.specs.Page.{Wrote};
ghost use Rattle.netlink_write.specs.Attributes.{attr};

// The words lowest first, each little-endian.
pub fn put_bitmap(page: &mut [u8], kind: u16, words: &[u32]) -> usize
    requires { (length words.now ≤ 16) × (68 ≤ length page.old) }
    ensures wrote { Wrote (attr kind (bytes_of words.now)) page.old page.new result }
    ensures value { result ≡ length words.now * 4 + 4 }
{
    word_bytes::write_words(words, &mut page[4..]);
    netlink_write::attributes::close_attribute(page, kind, words.len() * 4).bytes()
}

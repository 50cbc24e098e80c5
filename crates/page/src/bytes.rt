// Runs of bytes.
ghost use Rattle.std.specs.Prelude.{◌≡◌, ◌≤◌, ◌-◌, ◌++◌, length, take, replicate};
ghost use Rattle.basics.specs.Put.{put};

// A copy of the bytes, in a loop that stands where it is called: `copy_from_slice` becomes a call of memmove, which the archive takes from nobody.
pub fn put_bytes(page: &mut [u8], bytes: &[u8])
    requires { length bytes.now ≤ length page.old }
    ensures { page.new ≡ put page.old bytes.now }
{
    for (i, byte) in bytes.iter().enumerate() {
        page[i] = *byte;
    }
}

// n zero bytes. Up to four, as most padding has, are stored at once: of any other count it becomes a call, which costs more.
pub fn put_zeros(page: &mut [u8], n: usize)
    requires { n ≤ length page.old }
    ensures { page.new ≡ put page.old (replicate n 0) }
{
    match n {
        0 => {}
        1 => page[..1].fill(0),
        2 => page[..2].fill(0),
        3 => page[..3].fill(0),
        4 => page[..4].fill(0),
        _ => page[..n].fill(0),
    }
}

// The first k bytes, then zero bytes up to a total of n. As many of the n as there are bytes are copied, and those from k on cleared: whole words are
// copied faster.
pub fn put_filled(page: &mut [u8], bytes: &[u8], k: usize, n: usize)
    requires { (k ≤ length bytes.now) × (k ≤ n) × (n ≤ length page.old) }
    ensures { page.new ≡ put page.old (take k bytes.now ++ replicate (n - k) 0) }
{
    let m = n.min(bytes.len());
    put_bytes(page, &bytes[..m]);
    put_zeros(&mut page[k..], n - k);
}

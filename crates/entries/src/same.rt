// Whether two entries are the same.
ghost use Rattle.std.specs.Prelude.{◌≡◌, ◌+◌, ◌/◌, ◌≤◌, ◌<◌, eqb, length};
ghost use Rattle.basics.specs.Numbers.{u64_at};
ghost use Rattle.entries.specs.Entry.{entry_at, same_entry};

// The number in the eight bytes from `at` on.
#[tactic(auto, unfolding(basics::specs::Numbers::u32_at))]
pub fn eight(list: &[u8], at: usize) -> u64
    requires { at + 8 ≤ length list.now }
    ensures { result ≡ u64_at list.now at }
{
    u64::from_le_bytes([
        list[at],
        list[at + 1],
        list[at + 2],
        list[at + 3],
        list[at + 4],
        list[at + 5],
        list[at + 6],
        list[at + 7],
    ])
}

// Whether the eight bytes from `a` on are those from `b` on.
fn same_eight(list: &[u8], a: usize, b: usize) -> bool
    requires { (a + 8 ≤ length list.now) × (b + 8 ≤ length list.now) }
    ensures { result ≡ eqb (u64_at list.now a) (u64_at list.now b) }
{
    eight(list, a) == eight(list, b)
}

// Whether entries i and k are the same, eight bytes at a time and with no early exit.
pub fn same_entry(list: &[u8], i: usize, k: usize) -> bool
    requires { (i < length list.now / 32) × (k < length list.now / 32) }
    ensures { result ≡ same_entry (entry_at list.now i) (entry_at list.now k) }
{
    let a = i * 32;
    let b = k * 32;
    same_eight(list, a, b)
        & same_eight(list, a + 8, b + 8)
        & same_eight(list, a + 16, b + 16)
        & same_eight(list, a + 24, b + 24)
}

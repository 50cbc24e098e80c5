// What an attribute of each type must be, and whether one is: the netlink policy.
ghost use Rattle.std.specs.Prelude.{◌≡◌, ◌+◌, ◌≤◌, ◌<◌, length};
ghost use Rattle.basics.specs.Scan.{any};
ghost use Rattle.netlink.specs.Policy.{nul_at, is_name_payload, plain, nested, rule_of, judged};
ghost use Rattle.netlink.specs.NulSearch.{NulFrom, is_nul};

// The rule for the payload of a type: a nest must carry the nest bit, the others no bit.
#[derive(Clone, Copy)]
pub enum Rule {
    Unlisted,
    Nest,
    // A number of 32 bits: 4 bytes.
    Number,
    // 0 bytes.
    Flag,
    // 1 to this many bytes, of which the last is NUL and no other.
    Name(usize),
    // Any bytes.
    Bytes,
}

// What is wrong with an attribute.
#[derive(Clone, Copy)]
pub enum Fault {
    Length,
    Unknown,
    Payload,
}

#[derive(Clone, Copy)]
pub enum Verdict {
    Right,
    Wrong(Fault),
}

// Whether one of the n bytes from `at` on is NUL. No early exit: where n is known, all are compared at once.
pub fn some_nul(s: &[u8], at: usize, n: usize) -> bool
    requires { at + n ≤ length s.now }
    ensures { result ≡ any n (is_nul s.now at) }
{
    let mut some = false;
    for j in 0..n {
        some = some | (s[at + j] == 0);
    }
    some
}

// How far the bytes before the first NUL are passed, n at a time.
fn nul_free(s: &[u8], from: usize, n: usize) -> usize
    requires { (from ≤ length s.now) × (0 < n) × NulFrom s.now from }
    ensures { (result ≤ length s.now) × NulFrom s.now result }
{
    let mut i = from;
    while n <= s.len() - i {
        if some_nul(s, i, n) {
            return i;
        }
        i += n;
    }
    i
}

// Where the first NUL stands, the length where there is none.
pub fn nul_at(s: &[u8]) -> usize
    ensures { result ≡ nul_at s.now }
{
    let eights = nul_free(s, 0, 8);
    let mut i = nul_free(s, eights, 4);
    while i < s.len() {
        if s[i] == 0 {
            return i;
        }
        i += 1;
    }
    i
}

// Whether the bytes are a name of at most max bytes, its NUL counted.
pub fn is_name_payload(max: usize, s: &[u8]) -> bool
    ensures { result ≡ is_name_payload max s.now }
{
    let n = nul_at(s);
    if s.len() <= n {
        return false;
    }
    if n + 1 == s.len() {
        return s.len() <= max;
    }
    false
}

// Right where no bit is set above the type and the payload fits.
fn plain(bits: u16, fits: bool) -> Verdict
    ensures { result ≡ plain bits fits }
{
    if bits == 0 {
        if fits {
            Verdict::Right
        } else {
            Verdict::Wrong(Fault::Payload)
        }
    } else {
        Verdict::Wrong(Fault::Payload)
    }
}

// Right where of the two bits the nest bit alone is set.
fn nested(bits: u16) -> Verdict
    ensures { result ≡ nested bits }
{
    if bits == 2 {
        Verdict::Right
    } else {
        Verdict::Wrong(Fault::Payload)
    }
}

// Judges an attribute's bits and payload by a rule.
pub fn judge_by_rule(rule: Rule, bits: u16, payload: &[u8]) -> Verdict
    ensures { result ≡ judged rule bits payload.now }
{
    match rule {
        Rule::Unlisted => Verdict::Wrong(Fault::Unknown),
        Rule::Nest => nested(bits),
        Rule::Number => plain(bits, payload.len() == 4),
        Rule::Flag => plain(bits, payload.len() == 0),
        Rule::Name(max) => plain(bits, is_name_payload(max, payload)),
        Rule::Bytes => plain(bits, true),
    }
}

// The rule for a type; from 8 on none is listed.
pub fn rule_of(policy: [Rule; 8], kind: u16) -> Rule
    ensures { result ≡ rule_of policy kind }
{
    let k = kind as usize;
    if 8 <= k {
        return Rule::Unlisted;
    }
    policy[k]
}

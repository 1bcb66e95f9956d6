// Bytes: reading a number from them, storing one in them, and comparing two slices.
#![tactic(auto)]

ghost use Rattle.std.specs.Prelude.{◌<◌, ◌≡◌};
ghost use Rattle.layout.specs.Written.{four};
ghost use Rattle.paste.specs.Pasted.{pasted};
ghost use Rattle.raw_bytes.specs.Bytes.{number_or0, same};

// A byte, as a number.
pub fn wide(x: u8) -> u32
    ensures { (result ≡ x) × (result < 256) }
{
    u32::from(x)
}

// The number whose four bytes begin at a place, lowest byte first; 0 if fewer are left.
#[tactic(auto, unfolding(crate::specs::Bytes::number_or0))]
pub fn number_at(s: &[u8], at: usize) -> u32
    ensures { result ≡ number_or0 s.now at }
{
    if s.len() < at || s.len() - at < 4 {
        return 0;
    }
    u32::from_le_bytes([s[at], s[at + 1], s[at + 2], s[at + 3]])
}

// Whether two slices have the same bytes.
pub fn same(a: &[u8], b: &[u8]) -> bool
    ensures { result ≡ same a.now b.now }
{
    a == b
}

// Stores the four bytes of a number in dest from a place on, lowest byte first, if they fit there; else dest is unchanged.
#[tactic(auto, unfolding(paste::specs::Pasted::pasted))]
pub fn put_number(dest: &mut [u8], at: usize, n: u32)
    ensures { dest.new ≡ pasted dest.old at (four n) }
{
    if at <= dest.len() && 4 <= dest.len() - at {
        dest[at..at + 4].copy_from_slice(&n.to_le_bytes());
    }
}

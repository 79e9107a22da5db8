// Numbers in bytes, the highest byte first, at any place of any bytes. What they are is in specs/Numbers.antt, their laws in proofs/Laws.antt, and
// both round trips of each type in proofs/Kept.antt, since an impl may not cite proofs of its own crate as its trait's laws.
#![tactic(auto)]

ghost use Rattle.std.specs.Prelude.{◌+◌, ◌^◌, ◌<◌, ◌≡◌, ℕ, length, leb};
ghost use Rattle.plane.specs.Lists.{put_at};
ghost use Rattle.bigendian.specs.Numbers.{number_at, bytes_of, signed, bits};

/// A number that stands in bytes, the highest byte first.
pub trait BigEndian: Copy {
    // How many bytes it has.
    ghost size: { ℕ };

    // What the number in these bytes is read as.
    ghost read_as: { ℕ → Self };

    // The number in whose bytes it is written.
    ghost written_as: { Self → ℕ };

    /// The number at a place. A byte past the end counts as 0.
    fn read(bytes: &[u8], at: usize) -> Self
        ensures { result ≡ read_as (number_at size at bytes.now) };

    /// Puts the number at a place. Where there is no room, nothing is written.
    fn write(self, bytes: &mut [u8], at: usize)
        ensures { bytes.new ≡ put_at bytes.old at (bytes_of size (written_as self)) };
}

// Whether so many bytes fit from a place on.
fn has_room(bytes: &[u8], at: usize, size: usize) -> bool
    ensures { result ≡ leb (at + size) (length bytes.now) }
{
    size <= bytes.len() && at <= bytes.len() - size
}

// The bytes from a place on, with zeros for those past the end. Only the end of a file needs it, so it is cold: all other reading stays fast.
#[cold]
fn padded_at<const N: usize>(bytes: &[u8], at: usize) -> [u8; N]
    requires { length bytes.now < at + N }
    ensures { number_at N 0 result ≡ number_at N at bytes.now }
{
    let mut padded = [0; N];
    if at < bytes.len() {
        padded[..bytes.len() - at].copy_from_slice(&bytes[at..]);
    }
    padded
}

// The bytes from a place on. A byte past the end counts as 0.
fn bytes_at<const N: usize>(bytes: &[u8], at: usize) -> [u8; N]
    ensures { number_at N 0 result ≡ number_at N at bytes.now }
{
    if has_room(bytes, at, N) {
        return *bytes[at..at + N].as_array().unwrap();
    }
    padded_at(bytes, at)
}

// Puts bytes at a place. Where there is no room, nothing is written. That of `numerals`, above, gives the next place besides.
fn put_bytes(bytes: &mut [u8], at: usize, number: &[u8])
    ensures { bytes.new ≡ put_at bytes.old at number.now }
{
    if has_room(bytes, at, number.len()) {
        bytes[at..at + number.len()].copy_from_slice(number);
    }
}

// The conversions are each type's own, with no trait of the library's over them.

impl BigEndian for u16 {
    ghost size = { 2 };

    ghost read_as = { λ n. n };

    ghost written_as = { λ n. n };

    fn read(bytes: &[u8], at: usize) -> u16 {
        u16::from_be_bytes(bytes_at(bytes, at))
    }

    fn write(self, bytes: &mut [u8], at: usize) {
        put_bytes(bytes, at, &u16::to_be_bytes(self));
    }
}

impl BigEndian for u32 {
    ghost size = { 4 };

    ghost read_as = { λ n. n };

    ghost written_as = { λ n. n };

    fn read(bytes: &[u8], at: usize) -> u32 {
        u32::from_be_bytes(bytes_at(bytes, at))
    }

    fn write(self, bytes: &mut [u8], at: usize) {
        put_bytes(bytes, at, &u32::to_be_bytes(self));
    }
}

impl BigEndian for u64 {
    ghost size = { 8 };

    ghost read_as = { λ n. n };

    ghost written_as = { λ n. n };

    fn read(bytes: &[u8], at: usize) -> u64 {
        u64::from_be_bytes(bytes_at(bytes, at))
    }

    fn write(self, bytes: &mut [u8], at: usize) {
        put_bytes(bytes, at, &u64::to_be_bytes(self));
    }
}

impl BigEndian for i16 {
    ghost size = { 2 };

    ghost read_as = { signed (2 ^ 15) };

    ghost written_as = { bits (2 ^ 15) };

    fn read(bytes: &[u8], at: usize) -> i16 {
        u16::read(bytes, at).cast_signed()
    }

    fn write(self, bytes: &mut [u8], at: usize) {
        self.cast_unsigned().write(bytes, at);
    }
}

impl BigEndian for i32 {
    ghost size = { 4 };

    ghost read_as = { signed (2 ^ 31) };

    ghost written_as = { bits (2 ^ 31) };

    fn read(bytes: &[u8], at: usize) -> i32 {
        u32::read(bytes, at).cast_signed()
    }

    fn write(self, bytes: &mut [u8], at: usize) {
        self.cast_unsigned().write(bytes, at);
    }
}

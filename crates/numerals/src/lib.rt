// Numbers as text, read and printed. What they read as and how they are printed is in specs/Numerals.antt.
#![tactic(auto)]

ghost use Rattle.std.specs.Prelude.{ℕ, ◌+◌, ◌<◌, ◌≤◌, ◌≡◌, List, [], ◌++◌, length, take, drop, IfSome};
ghost use Rattle.numerals.specs.Bytes.{Put, added};
ghost use Rattle.numerals.specs.Numerals.{value_of, number_of, decimal, signed};

use std::marker::Model;

// ---- Reading

// The value of digits, if they are one to ten. `str::parse` would also take a plus sign, and more than ten digits that begin with zeros.
fn value_of(digits: &[u8]) -> Option<u64>
    ensures value { result ≡ value_of digits.now }
    ensures bound { IfSome result (λ n. n < 10_000_000_000) }
{
    if digits.is_empty() || digits.len() > 10 {
        return None;
    }
    let mut value = 0;
    for b in digits {
        if !b.is_ascii_digit() {
            return None;
        }
        value = 10 * value + u64::from(b - b'0');
    }
    Some(value)
}

/// The number that the bytes are: an optional minus and one to ten digits that fit.
pub fn number_of(bytes: &[u8]) -> Option<i32>
    ensures { result ≡ number_of bytes.now }
{
    match bytes.strip_prefix(b"-") {
        Some(digits) => i32::try_from(-(value_of(digits)? as i64)).ok(),
        None => i32::try_from(value_of(bytes)?).ok(),
    }
}

// ---- Printing

// Puts a number's digits at the start of an output, and gives how many they are. `write!` would promise them only where it succeeds.
fn spell(out: &mut [u8], n: u64) -> usize
    requires { length (decimal n) ≤ length out.old }
    ensures value { result ≡ length (decimal n) }
    ensures out_after { out.new ≡ decimal n ++ drop (length (decimal n)) out.old }
{
    if n < 10 {
        out[0] = b'0' + n as u8;
        return 1;
    }
    let at = spell(out, n / 10);
    out[at] = b'0' + (n % 10) as u8;
    at + 1
}

/// Puts bytes into an output from a place on, if all have room, and gives the place after them; otherwise the output and the place stay.
pub fn put_bytes(out: &mut [u8], at: usize, bytes: &[u8]) -> usize
    ensures { Put out.old at bytes.now result out.new }
{
    let Some(end) = at.checked_add(bytes.len()) else {
        return at;
    };
    if end > out.len() {
        return at;
    }
    out[at..end].copy_from_slice(bytes);
    end
}

/// Puts a number's digits, as put_bytes does.
pub fn put_number(out: &mut [u8], at: usize, n: u64) -> usize
    ensures { Put out.old at (decimal n) result out.new }
{
    let mut digits = [0; 20];
    let k = spell(&mut digits, n);
    put_bytes(out, at, &digits[..k])
}

/// Puts a number with its sign, as put_bytes does. It differs from put_number in more than the type: in what is written.
pub fn put_signed(out: &mut [u8], at: usize, z: i32) -> usize
    ensures { Put out.old at (signed z) result out.new }
{
    let n = u64::from(z.unsigned_abs());
    if z >= 0 {
        return put_number(out, at, n);
    }
    let mut digits = [b'-'; 11];
    let k = spell(&mut digits[1..], n);
    put_bytes(out, at, &digits[..=k])
}

// ---- A page

/// Bytes that are written one after another, at most N of them.
#[derive(Drop)]
pub struct Page<const N: usize> {
    room: [u8; N],
    len: usize,
}

// Clauses see the bytes that are written.
impl<const N: usize> Model for Page<N> {
    ghost Value = { List ℕ };

    ghost view = { λ p. take p.len p.room };

    ghost invariant = { λ p. p.len ≤ N };
}

impl<const N: usize> Page<N> {
    /// A page with nothing on it.
    pub fn new() -> Self
        ensures { result ≡ [] }
    {
        Page {
            room: [0; N],
            len: 0,
        }
    }

    /// What is written.
    pub fn bytes(&self) -> &[u8]
        ensures value { result.now ≡ self.now }
        ensures bound { length self.now ≤ N }
    {
        &self.room[..self.len]
    }

    /// Adds bytes, if all have room; otherwise the page stays.
    pub fn add(&mut self, bytes: &[u8])
        ensures { self.new ≡ added N self.old bytes.now }
    {
        self.len = put_bytes(&mut self.room, self.len, bytes);
    }

    /// Adds a number's digits, as `add` does.
    pub fn add_number(&mut self, n: u64)
        ensures { self.new ≡ added N self.old (decimal n) }
    {
        self.len = put_number(&mut self.room, self.len, n);
    }

    /// Adds a number with its sign, as `add` does. One function of both would need a trait whose only say is which text a number has.
    pub fn add_signed(&mut self, z: i32)
        ensures { self.new ≡ added N self.old (signed z) }
    {
        self.len = put_signed(&mut self.room, self.len, z);
    }
}

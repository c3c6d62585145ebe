ghost use Rattle.std.specs.Prelude.{◌≡◌, ℕ, ◌++◌};
ghost use Rattle.arena.specs.Bytes.{byte, marked_by, number, two};

/// The byte at place `i`; past the end it is 0.
pub fn byte_at(bytes: &[u8], i: usize) -> u8
    ensures { result ≡ byte bytes.now i }
{
    bytes.get(i).copied().unwrap_or(0)
}

/// The two-byte number at place `i`, the high byte first.
pub fn number_at(bytes: &[u8], i: usize) -> u16
    ensures { result ≡ number bytes.now i }
{
    // Past the end at once: readers ask this in loops, and the compiler then keeps what does not change there.
    let Some(high) = bytes.get(i) else {
        return 0;
    };
    256 * u16::from(*high) + u16::from(byte_at(bytes, i + 1))
}

/// Whether the two bytes of a mark stand at place `i`.
pub fn is_marked_by(bytes: &[u8], i: usize, mark: [u8; 2]) -> bool
    ensures { result ≡ marked_by bytes.now i mark }
{
    let [first, second] = mark;
    byte_at(bytes, i) == first && byte_at(bytes, i.saturating_add(1)) == second
}

/// The head of a strip or a certificate: its mark, and the numbers of positions and of goals.
pub fn head(mark: [u8; 2], n: u16, k: u16) -> [u8; 6]
    ensures { result ≡ mark ++ (two n ++ two k) }
{
    let [first, second] = mark;
    let [n_high, n_low] = n.to_be_bytes();
    let [k_high, k_low] = k.to_be_bytes();
    [first, second, n_high, n_low, k_high, k_low]
}

/// The end of a strip or a certificate: its mark, and the number of positions.
pub fn end(mark: [u8; 2], n: u16) -> [u8; 4]
    ensures { result ≡ mark ++ two n }
{
    let [first, second] = mark;
    let [high, low] = n.to_be_bytes();
    [first, second, high, low]
}

// Numbers as decimal text: written behind what stands in a buffer, and read from a place in a text.
#![tactic(auto)]

ghost use Rattle.std.specs.Prelude.{◌+◌, ◌^◌, ◌≤◌, ◌<◌, ◌≡◌, ◌++◌, length, take, drop, MatchOption, IfSome};
ghost use Rattle.decimal.specs.Decimal.{decimal, Digit, NumberAt, NoNumber, EndsAt};

// Puts a text into a buffer behind its first `at` bytes, and answers where it ends.
// kept: the buffer and its length are two parameters, for what is put is told by both in each contract (`to_after`, `to_unchanged`)
pub fn put(to: &mut [u8], at: usize, text: &[u8]) -> usize
    requires { at + length text.now ≤ length to.old }
    ensures value { result ≡ at + length text.now }
    ensures to_after { take result to.new ≡ take at to.old ++ text.now }
    ensures to_unchanged { drop result to.new ≡ drop result to.old }
{
    let end = at + text.len();
    to[at..end].copy_from_slice(text);
    end
}

// Puts a number's digits into a buffer behind its first `at` bytes, and answers where they end.
pub fn put_number(to: &mut [u8], at: usize, n: u64) -> usize
    requires { at + length (decimal n) ≤ length to.old }
    ensures value { result ≡ at + length (decimal n) }
    ensures to_after { take result to.new ≡ take at to.old ++ decimal n }
    ensures to_unchanged { drop result to.new ≡ drop result to.old }
{
    let mut digits = [0u8; 20];
    let k = io::decimal(n, &mut digits);
    put(to, at, &digits[..k])
}

// The value of a byte that is a digit.
fn digit(byte: u8) -> Option<u64>
    ensures { MatchOption result (¬ Digit byte) (λ d. (d < 10) × (byte ≡ 48 + d)) }
{
    match byte {
        b'0'..=b'9' => Some((byte - b'0') as u64),
        _ => None,
    }
}

// A number that was read, and the place past the byte that stops it.
#[derive(Clone, Copy)]
pub struct Number {
    pub value: u64,
    pub next: usize,
}

// The number up to `most` whose digits stand at `at`, with the byte `stop` behind them and no zero in front.
// kept: the text and the place in it are two parameters, since one text is read at many places, and each contract tells both.
pub fn number_at(text: &[u8], at: usize, stop: u8, most: u64) -> Option<Number>
    requires { (at ≤ length text.now) × (stop < 48) × (9 ≤ most) × (most < 2 ^ 32) }
    ensures number_at { MatchOption result (NoNumber stop most (drop at text.now)) (λ n. NumberAt (drop at text.now) stop most n.value (drop n.next text.now)) }
    ensures next_in_bounds { IfSome result (λ n. n.next ≤ length text.now) }
    ensures ends_at { EndsAt at result }
{
    let first = digit(*text.get(at)?)?;
    number_from(text, at, at + 1, first, stop, most)
}

// The same where the digits from `at` to `from` are those of a number, which may have more.
fn number_from(
    text: &[u8],
    at: usize,
    from: usize,
    start: u64,
    stop: u8,
    most: u64,
) -> Option<Number>
    requires at_in_bounds { (at ≤ length text.now) × (stop < 48) × (start ≤ most) × (most < 2 ^ 32) }
    requires from_in_bounds { (from ≤ length text.now) × (drop at text.now ≡ decimal start ++ drop from text.now) }
    ensures number_at { MatchOption result (NoNumber stop most (drop at text.now)) (λ n. NumberAt (drop at text.now) stop most n.value (drop n.next text.now)) }
    ensures next_in_bounds { IfSome result (λ n. n.next ≤ length text.now) }
    ensures ends_at { EndsAt at result }
{
    let mut value = start;
    for i in from..text.len() {
        let byte = text[i];
        if byte == stop {
            return Some(Number {
                value: value,
                next: i + 1,
            });
        }
        let more = 10 * value + digit(byte)?;
        if value == 0 {
            return None;
        }
        if most < more {
            return None;
        }
        value = more;
    }
    None
}

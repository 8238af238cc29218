// Decimal numbers without a leading zero: reading one byte by byte, up to a bound that the caller names, and writing one.
#![tactic(auto)]

ghost use Rattle.std.specs.Prelude.{◌≡◌, ◌∷◌, ◌+◌, ◌*◌, length};
ghost use Rattle.std.proofs.lemmas.List.Edits.{sets};
ghost use Rattle.base_bytes.specs.Bytes.{tab};
ghost use Rattle.text_digits.specs.Decimal.{decimal};
ghost use Rattle.text_digits.specs.Digits.{bounded, first_digit, grown, digits_step, read_out, digits_paper, decimal_paper};

// What the bytes read so far are: none yet, a lone zero, a number from 1 on, or no such number, which stays.
#[derive(Clone, Copy)]
pub enum Digits {
    NoDigit,
    Zero,
    Number(u64),
    Bad,
}

// The number ten times n and a digit more, where it is within the bound.
fn grow(n: u64, digit: u64, most: u64) -> Digits
    ensures { result ≡ bounded most (n * 10 + digit) }
{
    if most < digit {
        return Digits::Bad;
    }
    if (most - digit) / 10 < n {
        return Digits::Bad;
    }
    Digits::Number(n * 10 + digit)
}

// One byte more, at the front.
fn begin(b: u8, most: u64) -> Digits
    ensures { result ≡ first_digit most b }
{
    if !base_letters::is_digit(b) {
        return Digits::Bad;
    }
    if b == b'0' {
        return Digits::Zero;
    }
    grow(0, (b - b'0') as u64, most)
}

// One byte more, behind the digits of n.
fn go_on(n: u64, b: u8, most: u64) -> Digits
    ensures { result ≡ grown most n b }
{
    if !base_letters::is_digit(b) {
        return Digits::Bad;
    }
    grow(n, (b - b'0') as u64, most)
}

// One byte more.
pub fn step(d: Digits, b: u8, most: u64) -> Digits
    ensures value { result ≡ digits_step most d b }
    ensures result_value { digits_paper result ≡ digits_paper (digits_step most d b) }
{
    match d {
        Digits::NoDigit => begin(b, most),
        Digits::Zero => Digits::Bad,
        Digits::Number(n) => go_on(n, b, most),
        Digits::Bad => Digits::Bad,
    }
}

// The number that the bytes read so far are.
pub fn read_out(d: Digits) -> Option<u64>
    ensures value { result ≡ read_out d }
    ensures result_value { decimal_paper result ≡ decimal_paper (read_out d) }
{
    match d {
        Digits::NoDigit => None,
        Digits::Zero => Some(0),
        Digits::Number(n) => Some(n),
        Digits::Bad => None,
    }
}

// Writes a number into lent memory from the place `at` on, and answers how many digits it has; what has no room is left out.
pub fn put_decimal(out: &mut [u8], at: usize, n: u64) -> usize
    ensures value { result ≡ length (decimal n) }
    ensures out_after { out.new ≡ sets out.old at (decimal n) }
{
    let mut digits = [0u8; 20];
    let k = io::decimal(n, &mut digits);
    base_lists::put_bytes(out, at, &digits[..k]);
    k
}

// Writes a tab and a number, and answers how many bytes these are; what has no room is left out.
pub fn put_field(out: &mut [u8], at: usize, n: u64) -> usize
    ensures value { result ≡ length (tab ∷ decimal n) }
    ensures out_after { out.new ≡ sets out.old at (tab ∷ decimal n) }
{
    let mut field = [b'\t'; 21];
    let k = put_decimal(&mut field, 1, n);
    base_lists::put_bytes(out, at, &field[..k + 1]);
    k + 1
}

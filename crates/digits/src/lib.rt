// Bytes by their form: whether they begin with a key, whether they are a number in decimal, and what that says.

#![tactic(auto)]

ghost use Rattle.std.specs.Prelude.{◌≡◌, true};
ghost use Rattle.written.specs.Lists.{all};
ghost use Rattle.written.specs.Sheet.{begins, is_digit, is_number, value_of_digits};

// The bytes begin with the key.
pub fn begins(rest: &[u8], key: &[u8]) -> bool
    ensures { result ≡ begins key.now rest.now }
{
    rest.starts_with(key)
}

// Every byte is a digit.
fn all_digits(digits: &[u8]) -> bool
    ensures { result ≡ all is_digit digits.now }
{
    digits.iter().all(|b| b.is_ascii_digit())
}

// A number has 1 to 10 digits, no leading 0 except 0 itself.
#[tactic(auto, unfolding(written::specs::Sheet::is_number))]
pub fn is_number(digits: &[u8]) -> bool
    ensures { result ≡ is_number digits.now }
{
    let n = digits.len();
    0 < n && n <= 10 && all_digits(digits) && (n == 1 || digits[0] != b'0')
}

// Ten digits can exceed 32 bits, and not 64.
pub fn value(digits: &[u8]) -> u64
    requires { is_number digits.now ≡ true }
    ensures { result ≡ value_of_digits digits.now }
{
    let mut n: u64 = 0;
    for b in digits {
        n = 10 * n + u64::from(*b - b'0');
    }
    n
}

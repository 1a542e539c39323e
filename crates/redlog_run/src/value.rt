ghost use Rattle.std.specs.Prelude.{◌≡◌, ◌≤◌, length};
ghost use Rattle.std.specs.List.{list_all};
ghost use Rattle.program_meaning.specs.Value.{is_digit, are_digits, number_after, value_of};

/// The number that the text says, where it is one to ten digits and the number is from 1 to the greatest.
#[tactic(auto, unfolding(program_meaning::specs::Value::value_of))]
pub fn value_of(text: &[u8], greatest: u32) -> Option<u32>
    ensures { result ≡ value_of greatest text.now }
{
    if !are_digits(text) {
        return None;
    }
    let number = number_of(text);
    if number < 1 || number > greatest as u64 {
        return None;
    }
    Some(number as u32)
}

/// Whether the text is one to ten digits.
fn are_digits(text: &[u8]) -> bool
    ensures { result ≡ are_digits text.now }
{
    if text.is_empty() || text.len() > 10 {
        return false;
    }
    all_digits(text)
}

/// Whether each byte is a digit.
fn all_digits(text: &[u8]) -> bool
    ensures { result ≡ list_all is_digit text.now }
{
    text.iter().all(|byte| is_digit(*byte))
}

/// The number that decimal digits say.
fn number_of(digits: &[u8]) -> u64
    requires { length digits.now ≤ 10 }
    ensures { result ≡ number_after 0 digits.now }
{
    let mut number = 0;
    'digits: for digit in digits {
        number = number * 10 + digit.saturating_sub(b'0') as u64;
    }
    number
}

/// Whether a byte is a decimal digit.
fn is_digit(byte: u8) -> bool
    ensures { result ≡ is_digit byte }
{
    b'0' <= byte && byte <= b'9'
}

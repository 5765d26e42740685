//! What the words after the program's name ask for.
ghost use Rattle.std.specs.Prelude.{◌≡◌, ◌≤◌, ◌∷◌, ℕ, List, true, option_map};
ghost use Rattle.jd_engine.specs.Words.{Command, at_most, digits_from, number_of, command_of, is_digit, is_file};

fn is_digit(byte: u8) -> bool
    ensures { result ≡ is_digit byte }
{
    b'0' <= byte && byte <= b'9'
}

// The number with a digit behind it; one that is too large stays as it is.
#[tactic(auto, using(crate::proofs::Digits::still_too_large))]
fn with_digit(number: u32, digit: u8, most: u32) -> u32
    requires small { most ≤ 16 }
    requires digit { is_digit digit ≡ true }
    ensures { (rest : List ℕ) → at_most most (digits_from number (digit ∷ rest)) ≡ at_most most (digits_from result rest) }
{
    if number > most {
        return number;
    }
    number * 10 + u32::from(digit - b'0')
}

/// The number of a word of digits, where it is at most `most`.
fn number_up_to(mut word: &[u8], most: u32) -> Option<u32>
    requires { most ≤ 16 }
    ensures { result ≡ at_most most (number_of word.entry.now) }
{
    if word.is_empty() {
        return None;
    }
    let mut number: u32 = 0;
    while let [byte, rest @ ..] = word {
        if !is_digit(*byte) {
            return None;
        }
        number = with_digit(number, *byte, most);
        word = rest;
    }
    if number <= most { Some(number) } else { None }
}

fn is_file(word: &[u8]) -> bool
    ensures { result ≡ is_file word.now }
{
    match word {
        [first, _, ..] => *first != b'-',
        _ => true,
    }
}

/// The file and the number of workers that the words ask for: `sim FILE`, or `sim -p N FILE` with N at most 1.
pub fn command(words: &[String]) -> Option<(&str, u32)>
    ensures { option_map (λ p. record { file = p.0.now; workers = p.1 }) result ≡ command_of words.now }
{
    match words {
        [command, file] => {
            if command.as_str() == "sim" && is_file(file.as_bytes()) {
                return Some((file.as_str(), 0));
            }
            None
        }
        [command, option, number, file] => {
            if command.as_str() != "sim" || option.as_str() != "-p" || !is_file(file.as_bytes()) {
                return None;
            }
            match number_up_to(number.as_bytes(), 1) {
                Some(workers) => Some((file.as_str(), workers)),
                None => None,
            }
        }
        _ => None,
    }
}

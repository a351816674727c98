//! Numbers of any size, read from their digits.

ghost use Rattle.std.specs.Prelude.{◌≡◌, ℕ, ◌+◌, ◌*◌, ◌<◌, SomeIff};
ghost use Rattle.std.specs.Char.{digit_value};
ghost use Rattle.std.specs.Option.{option_map};
ghost use Rattle.text_parts.specs.Numbers.{base_number, number_from, up_to};
ghost use Rattle.text_parts.specs.Reading.{number_of_digits, number_of_text};

/// The base that digits are read in.
#[derive(Clone, Copy, Debug, PartialEq, Eq)]
pub enum Base {
    /// 10, with the digits 0 to 9.
    Decimal,
    /// 16, with the digits 0 to 9, A to F and a to f.
    Hexadecimal,
}

impl Base {
    /// The base as a number.
    fn number(self) -> u32
        ensures { result ≡ base_number self }
    {
        match self {
            Base::Decimal => 10,
            Base::Hexadecimal => 16,
        }
    }

    /// What a byte says as a digit of the base.
    pub(crate) fn value_of_digit(self, byte: u8) -> Option<u64>
        ensures { SomeIff result (digit_value byte < base_number self) (digit_value byte) }
    {
        char::from(byte).to_digit(self.number()).map(u64::from)
    }
}

/// A number that digits say, however many they are.
#[derive(Clone, Copy, Debug, PartialEq, Eq)]
pub enum Number {
    /// A number of at most 64 bits.
    Word(u64),
    /// A number of more than 64 bits.
    TooLarge,
}

impl Number {
    /// The number with one more digit.
    fn followed_by(self, base: Base, digit: u64) -> Number
        requires { digit < base_number base }
        ensures { (value : ℕ) → self ≡ number_from value → result ≡ number_from (value * base_number base + digit) }
    {
        let Number::Word(word) = self else {
            return Number::TooLarge;
        };
        let longer = u128::from(word) * u128::from(base.number()) + u128::from(digit);
        u64::try_from(longer).map_or(Number::TooLarge, Number::Word)
    }

    /// The number where it is no more than a limit, else None.
    pub fn up_to(self, limit: u64) -> Option<u64>
        ensures { (value : ℕ) → self ≡ number_from value → result ≡ up_to limit value }
    {
        match self {
            Number::Word(word) if word <= limit => Some(word),
            Number::Word(_) | Number::TooLarge => None,
        }
    }
}

/// The number that digits of a base say, the most significant first: one digit or more, zeros in front too.
/// None for every other text: there is no sign, no `0x`, no `_` and no blank.
pub fn read_digits(base: Base, digits: &[u8]) -> Option<Number>
    ensures { result ≡ option_map number_from (number_of_digits (base_number base) digits.now) }
{
    if digits.is_empty() {
        return None;
    }
    let mut number = Number::Word(0);
    for digit in digits {
        let value = base.value_of_digit(*digit)?;
        number = number.followed_by(base, value);
    }
    Some(number)
}

/// The number that a text says: decimal digits, or `0x` and hexadecimal digits of either case, one digit or more.
/// None for every other text: there is no sign, no `0X`, no `_` and no blank.
#[tactic(auto, unfolding(crate::specs::Reading::number_of_text))]
pub fn read_number(text: &[u8]) -> Option<Number>
    ensures { result ≡ option_map number_from (number_of_text text.now) }
{
    if text.starts_with(b"0x") {
        read_digits(Base::Hexadecimal, &text[2..])
    } else {
        read_digits(Base::Decimal, text)
    }
}

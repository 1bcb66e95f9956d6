// The digits of a number in base ten.
#![tactic(auto)]

ghost use Rattle.std.specs.Prelude.{◌++◌, ◌≡◌, take};
ghost use Rattle.decimal.specs.Decimal.{decimal};

use fixed_text::FixedText;

// The most digits of a 64-bit number.
pub const MOST_DIGITS: usize = 20;

// The digits of n, without leading zeros; 0 has one digit.
pub fn decimal(n: u64) -> FixedText<MOST_DIGITS>
    ensures { result ≡ decimal n }
{
    let mut digits = FixedText::new();
    push_decimal(&mut digits, n);
    digits
}

// Adds the digits of n to a text, as far as there is room.
pub fn push_decimal<const N: usize>(text: &mut FixedText<N>, n: u64)
    ensures { text.new ≡ take N (text.old ++ decimal n) }
{
    if 10 <= n {
        push_decimal(text, n / 10);
    }
    text.push(b'0' + (n % 10) as u8)
}

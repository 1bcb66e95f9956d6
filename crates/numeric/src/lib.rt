// The SQL text of a Numeric mapping.
#![tactic(auto)]

ghost use Rattle.std.specs.Prelude.{◌≡◌, ◌≤◌, length};
ghost use Rattle.numeric.specs.Numeric.{numeric_text, numeric_size, option_of};

use decimal::push_decimal;
use fixed_text::FixedText;

// The most bytes of a Numeric text.
pub const NUMERIC_SQL_SIZE: usize = 31;

// A Numeric text.
pub type NumericSql = FixedText<NUMERIC_SQL_SIZE>;

// The SQL text of a Numeric mapping.
pub fn numeric_sql_string(precision: Option<u32>, scale: Option<u32>) -> NumericSql
    ensures value { result ≡ numeric_text (option_of precision) (option_of scale) }
    ensures len_le_numeric_size { length result ≤ numeric_size }
{
    let mut text = FixedText::new();
    text.extend_from_slice(b"NUMERIC");
    let Some(precision) = precision else {
        return text;
    };
    text.extend_from_slice(b"(");
    push_decimal(&mut text, u64::from(precision));
    if let Some(scale) = scale {
        text.extend_from_slice(b", ");
        push_decimal(&mut text, u64::from(scale));
    }
    text.extend_from_slice(b")");
    text
}

// Hexadecimal digits, as many as a field has.
ghost use Rattle.std.specs.Prelude.{◌≡◌, ◌<◌, [], ◌∷◌, ◌++◌, false};
ghost use Rattle.std.specs.Fmt.{digit_glyph};
ghost use Rattle.run_report.specs.ReportText.{word, hex};

// The digits 0 to f.
const DIGITS: [u8; 16] = *b"0123456789abcdef";

// The digit of a number below 16.
fn digit(number: u32) -> u8
    requires { number < 16 }
    ensures { result ≡ digit_glyph false number }
{
    DIGITS[number as usize]
}

// The eight digits of a number, and a byte after them.
#[tactic(auto, unfolding(crate::specs::ReportText::hex))]
pub(crate) fn word_digits(number: u32, after: u8) -> [u8; 9]
    ensures { result ≡ word number ++ after ∷ [] }
{
    let without_1 = number / 16;
    let without_2 = without_1 / 16;
    let without_3 = without_2 / 16;
    let without_4 = without_3 / 16;
    let without_5 = without_4 / 16;
    let without_6 = without_5 / 16;
    let without_7 = without_6 / 16;
    [
        digit(without_7 % 16),
        digit(without_6 % 16),
        digit(without_5 % 16),
        digit(without_4 % 16),
        digit(without_3 % 16),
        digit(without_2 % 16),
        digit(without_1 % 16),
        digit(number % 16),
        after,
    ]
}

// The last six digits of a number, and a line feed.
#[tactic(auto, unfolding(crate::specs::ReportText::hex))]
pub(crate) fn route_digits(number: u32) -> [u8; 7]
    ensures { result ≡ hex 6 number ++ 10 ∷ [] }
{
    let without_1 = number / 16;
    let without_2 = without_1 / 16;
    let without_3 = without_2 / 16;
    let without_4 = without_3 / 16;
    let without_5 = without_4 / 16;
    [
        digit(without_5 % 16),
        digit(without_4 % 16),
        digit(without_3 % 16),
        digit(without_2 % 16),
        digit(without_1 % 16),
        digit(number % 16),
        b'\n',
    ]
}

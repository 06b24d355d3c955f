// Digits, decimal ones and lowercase hexadecimal ones.
ghost use Rattle.std.specs.Prelude.{◌≡◌};
ghost use Rattle.format.specs.Keylist.{hex_digit};
ghost use Rattle.keylines.specs.Answers.{option_of, decimal_digit};

pub fn decimal(b: u8) -> Option<u8>
    ensures { option_of result ≡ decimal_digit b }
{
    match b {
        b'0'..=b'9' => Some(b - b'0'),
        _ => None,
    }
}

#[tactic(auto, unfolding(format::specs::Keylist::hex_digit))]
pub fn hex(b: u8) -> Option<u8>
    ensures { option_of result ≡ hex_digit b }
{
    match b {
        b'a'..=b'f' => Some(b - b'a' + 10),
        _ => decimal(b),
    }
}

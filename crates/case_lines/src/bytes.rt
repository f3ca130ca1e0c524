// Bytes written as hexadecimal digits, two for each.
ghost use Rattle.std.specs.Prelude.{◌≡◌, ◌++◌, ◌<◌, IfOk};
ghost use Rattle.case_lines.specs.Hex.{digit_value, hex_bytes};

use std::alloc::AllocError;

// The value of a digit in small letters; anything else counts as 0.
// Kept: a match, since `char::to_digit` takes capital letters too, which have always counted as 0 here.
fn digit(b: u8) -> u8
    ensures value { result ≡ digit_value b }
    ensures below { result < 16 }
{
    match b {
        b'0'..=b'9' => b - b'0',
        b'a'..=b'f' => b - b'a' + 10,
        _ => 0,
    }
}

// The bytes of a text, each put behind those that stand. A lone digit at the end counts as the byte 0.
#[tactic(auto, unfolding(crate::specs::Hex::hex_bytes))]
pub fn push_hex(bytes: &mut Vec<u8>, text: &str) -> Result<(), AllocError>
    ensures { IfOk result (λ _. bytes.new.items ≡ bytes.old.items ++ hex_bytes text.now) }
{
    let mut digits = text.as_bytes();
    while let [high, low, rest @ ..] = digits {
        bytes.push(digit(*high) * 16 + digit(*low))?;
        digits = rest;
    }
    if !digits.is_empty() {
        bytes.push(0)?;
    }
    Ok(())
}

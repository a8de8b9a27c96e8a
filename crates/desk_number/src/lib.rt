// The number that an argument of a program writes in decimal, 0 to 65,535.
#![tactic(auto)]

ghost use Rattle.std.specs.Prelude.{◌-◌, ◌≤◌, ◌<◌, ◌≡◌, length};
ghost use Rattle.base.specs.Lists.{equal as equalTo};
ghost use Rattle.text.specs.Decimal.{decimal};
ghost use Rattle.desk_number.specs.Numbers.{shown_number, number_of, number_or_none};

// The digit that a byte shows. A byte before '0' counts as 0.
fn digit(b: u8) -> u64
    ensures { (result ≡ b - 48) × (result < 256) }
{
    u64::from(b.saturating_sub(b'0'))
}

// The number that up to five digits show.
fn shown(text: &[u8]) -> u64
    requires { length text.now ≤ 5 }
    ensures { result ≡ shown_number text.now }
{
    let mut v: u64 = 0;
    for b in text {
        v = v * 10 + digit(*b);
    }
    v
}

// Does an argument write this number in decimal?
pub fn writes(argument: &[u8], number: u16) -> bool
    ensures { result ≡ equalTo argument.now (decimal number) }
{
    let mut text = [0u8; 6];
    let end = text::decimal(&mut text, 0, u32::from(number), b'\n');
    base::equal(argument, &text[..end - 1])
}

// The number that an argument writes. No sign, no space and no zero in front of other digits may stand in it.
pub fn number_of(argument: &[u8]) -> Option<u16>
    ensures { number_or_none result ≡ number_of argument.now }
{
    if 5 < argument.len() {
        return None;
    }
    let Ok(n) = u16::try_from(shown(argument)) else {
        return None;
    };
    if writes(argument, n) { Some(n) } else { None }
}

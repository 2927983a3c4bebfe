// How numbers are spelt in a listing: document 01, "One deck whole".
#![tactic(auto)]

ghost use Rattle.std.specs.Prelude.{◌≡◌, ◌++◌, ◌-◌, length, take};
ghost use Rattle.digits.specs.Digits.{decimal, hex_digit, hex_digits};

// The decimal digits of n at the end of 20 bytes, those before as found; answers where they start.
pub fn spell(s: &mut [u8; 20], n: u64) -> usize
    ensures { (result ≡ 20 - length (decimal n)) × (s.new ≡ take result s.old ++ decimal n) }
{
    let s: &mut [u8] = s; // of a slice a proof has the length
    s[19] = b'0' + (n % 10) as u8;
    let mut i = 19;
    let mut rest = n / 10;
    while 0 < rest {
        i -= 1;
        s[i] = b'0' + (rest % 10) as u8;
        rest /= 10;
    }
    i
}

// The last hexadecimal digit of n, in upper case.
fn digit(n: u32) -> u8
    ensures { result ≡ hex_digit n }
{
    let d = (n % 16) as u8;
    if d < 10 { b'0' + d } else { b'A' + (d - 10) }
}

// The eight hexadecimal digits of an identifier.
pub fn hex_digits(n: u32) -> [u8; 8]
    ensures { result ≡ hex_digits n }
{
    [
        digit(n / 0x1000_0000),
        digit(n / 0x100_0000),
        digit(n / 0x10_0000),
        digit(n / 0x1_0000),
        digit(n / 0x1000),
        digit(n / 0x100),
        digit(n / 0x10),
        digit(n),
    ]
}

// The bytes of a row's text: its signs and its letters, made and told. The rules are in specs/.
#![tactic(auto)]

ghost use Rattle.std.specs.Prelude.{◌≡◌};
ghost use Rattle.pauli.specs.Letters.{letter, x, z};
ghost use Rattle.pauli.specs.Texts.{sign_byte, letter_byte, is_sign, is_letter, letter_of};

pub fn sign_byte(minus: bool) -> u8
    ensures { result ≡ sign_byte minus }
{
    if minus { b'-' } else { b'+' }
}

// The letter of these two bits.
pub fn letter_byte(x: bool, z: bool) -> u8
    ensures { result ≡ letter_byte (letter x z) }
{
    if x {
        if z { b'Y' } else { b'X' }
    } else {
        if z { b'Z' } else { b'I' }
    }
}

pub fn is_sign(b: u8) -> bool
    ensures { result ≡ is_sign b }
{
    (b == b'+') | (b == b'-')
}

pub fn is_letter(b: u8) -> bool
    ensures { result ≡ is_letter b }
{
    (b == b'I') | (b == b'X') | (b == b'Y') | (b == b'Z')
}

pub fn has_x(b: u8) -> bool
    ensures { result ≡ x (letter_of b) }
{
    (b == b'X') | (b == b'Y')
}

pub fn has_z(b: u8) -> bool
    ensures { result ≡ z (letter_of b) }
{
    (b == b'Y') | (b == b'Z')
}

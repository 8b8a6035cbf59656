// Reading the decimal numbers of a session: up to 4,294,967,295, without leading zeros (Grammar of session).
#![tactic(auto)]

ghost use Rattle.std.specs.Prelude.{◌≡◌};
ghost use Rattle.session.specs.Grammar.{parse_digits, parse_number};

// The number that decimal digits make, up to 4,294,967,295.
#[tactic(auto, using(crate::proofs::Laws::digit_steps))]
pub fn digits(s: &[u8]) -> Option<u32>
    ensures { result ≡ parse_digits 0 s.now }
{
    let mut n: u64 = 0;
    for x in s {
        if *x < b'0' || b'9' < *x {
            return None;
        }
        let m = n * 10 + u64::from(*x - b'0');
        if 4294967295 < m {
            return None;
        }
        n = m;
    }
    Some(n as u32)
}

// A decimal number without leading zeros.
#[tactic(auto, using(crate::proofs::Laws::number_cases))]
pub fn number(s: &[u8]) -> Option<u32>
    ensures { result ≡ parse_number s.now }
{
    match s {
        [] => None,
        [b'0'] => Some(0),
        [b'0', ..] => None,
        _ => digits(s),
    }
}

// A page: a lent buffer and how many of its bytes are printed. Bytes, numbers and lines of a key and a number are printed on it: each method appends what its
// definition gives (Print of session); bytes that find no room are left out (Buffer of session).
#![tactic(auto)]

ghost use Rattle.std.specs.Prelude.{◌≡◌, [], ◌∷◌, ◌++◌, take};
ghost use Rattle.session.specs.Print.{decimal_digits, decimal, key_line, refusal_line};
ghost use Rattle.session.specs.Buffer.{buffer};
ghost use Rattle.session_bytes.specs.Pages.{shown, Appends};

#[derive(Drop)]
pub struct Page<'a> {
    out: &'a mut [u8],
    printed: usize,
}

impl<'a> Page<'a> {
    // A page on a lent buffer, with nothing printed.
    pub fn new(out: &'a mut [u8]) -> Page<'a>
        ensures same_reference { result.out.ghost_name ≡ out.entry.ghost_name }
        ensures empty { shown result ≡ buffer out.old 0 }
    {
        Page { out, printed: 0 }
    }

    // A page on a lent buffer, of which the bytes before a place are printed.
    pub fn from_place(out: &'a mut [u8], at: usize) -> Page<'a>
        ensures same_reference { result.out.ghost_name ≡ out.entry.ghost_name }
        ensures place { shown result ≡ buffer out.old at }
    {
        Page { out, printed: at }
    }

    // How many bytes are printed.
    pub fn printed(&self) -> usize
        ensures { result ≡ (shown self.now).at }
    {
        self.printed
    }

    // The printed bytes.
    pub fn text(&self) -> &[u8]
        ensures { result.now ≡ take self.now.printed self.now.out.now }
    {
        &self.out[..self.printed.min(self.out.len())]
    }

    #[tactic(auto, using(crate::proofs::Laws::append_in, crate::proofs::Laws::append_out, crate::proofs::Laws::append_one))]
    pub fn byte(&mut self, b: u8)
        ensures { Appends (b ∷ []) self.old self.new }
    {
        if self.printed < self.out.len() {
            self.out[self.printed] = b;
            self.printed += 1;
        }
    }

    #[tactic(auto, using(crate::proofs::Laws::append_on, crate::proofs::Laws::append_end, crate::proofs::Laws::append_one))]
    pub fn bytes(&mut self, s: &[u8])
        ensures { Appends s.now self.old self.new }
    {
        for b in s {
            self.byte(*b);
        }
    }

    // A number's decimal digits, at most so many of them.
    #[tactic(auto, using(crate::proofs::Laws::digit_cases, crate::proofs::Laws::append_one))]
    fn digits(&mut self, n: u64, most: usize)
        ensures { Appends (decimal_digits most n) self.old self.new }
    {
        if most == 0 {
            return;
        }
        if n < 10 {
            return self.byte(b'0' + n as u8);
        }
        self.digits(n / 10, most - 1);
        self.byte(b'0' + (n % 10) as u8);
    }

    // A number in decimal.
    #[tactic(auto, unfolding(session::specs::Print::decimal))]
    pub fn number(&mut self, n: u64)
        ensures { Appends (decimal n) self.old self.new }
    {
        self.digits(n, 20);
    }

    // A key, a number and one byte.
    #[tactic(auto, using(crate::proofs::Laws::parts))]
    pub fn keyed(&mut self, key: &[u8], n: u64, last: u8)
        ensures { Appends (key.now ++ decimal n ++ (last ∷ [])) self.old self.new }
    {
        self.bytes(key);
        self.number(n);
        self.byte(last);
    }

    // A key and a number, closed by byte 10.
    #[tactic(auto, unfolding(session::specs::Print::key_line))]
    pub fn key_line(&mut self, key: &[u8], n: u64)
        ensures { Appends (key_line key.now n) self.old self.new }
    {
        self.keyed(key, n, b'\n');
    }

    // `refuse=` and a refusal's number.
    #[tactic(auto, unfolding(session::specs::Print::refusal_line))]
    pub fn refusal(&mut self, n: u32)
        ensures { Appends (refusal_line n) self.old self.new }
    {
        self.key_line(b"refuse=", u64::from(n));
    }
}

// A text that is put into a lent buffer piece by piece.
ghost use Rattle.std.specs.Prelude.{◌<◌, ◌≤◌, ◌∷◌, [], length};
ghost use Rattle.text.specs.Digits.{decimal, digits};
ghost use Rattle.print.specs.Text.{hex};
ghost use Rattle.print.specs.Writer.{HasRoom, Wrote};

// The next byte goes to `at`.
#[derive(Drop)]
pub struct Writer<'a> {
    pub out: &'a mut [u8],
    pub at: usize,
}

impl Writer<'_> {
    pub fn byte(&mut self, b: u8)
        requires { HasRoom (b ∷ []) self.old }
        ensures { Wrote (b ∷ []) self.old self.new }
    {
        self.out[self.at] = b;
        self.at += 1;
    }

    pub fn bytes(&mut self, s: &[u8])
        requires { HasRoom s.now self.old }
        ensures { Wrote s.now self.old self.new }
    {
        let end = self.at + s.len();
        self.out[self.at..end].copy_from_slice(s);
        self.at = end;
    }

    // The lowest k digits of n.
    fn digits(&mut self, n: u64, base: u64, k: usize)
        requires { (0 < base) × (base ≤ 16) × HasRoom (digits base k n) self.old }
        ensures { Wrote (digits base k n) self.old self.new }
    {
        let end = self.at + k;
        let mut rest = n;
        for i in (self.at..end).rev() {
            self.out[i] = crate::glyph(rest % base);
            rest /= base;
        }
        self.at = end;
    }

    pub fn decimal(&mut self, n: u64)
        requires { HasRoom (decimal n) self.old }
        ensures { Wrote (decimal n) self.old self.new }
    {
        self.digits(n, 10, crate::decimal_length(n));
    }

    // A word in 8 hexadecimal digits.
    pub fn hex(&mut self, word: u32)
        requires { HasRoom (hex word) self.old }
        ensures { Wrote (hex word) self.old self.new }
    {
        self.digits(u64::from(word), 16, 8);
    }
}

//! The fields of the previewer's lines, appended to the text in lent bytes. They serve the program,
//! which knows how long its text can be: each asks for room for the longest.
//!
//! Bytes, and not `write!` over `Display`: the text is made without a heap and may not fail, and a
//! `Display` says what it wrote only where it is `Ok`.
#![tactic(auto)]

ghost use Rattle.std.specs.Prelude.{◌≡◌, [], ◌∷◌, ◌+◌, ◌≤◌, ◌<◌, length};
ghost use Rattle.model.specs.Program.{
  decimal,
  spaced as Program·spaced,
  coloned as Program·coloned,
};
ghost use Rattle.fields.specs.Clauses.{Appended};

/// Text in lent bytes: it stands in those before `end`, and what follows is as lent.
#[derive(Drop)]
pub struct Text<'a> {
    pub out: &'a mut [u8],
    pub end: usize,
}

impl Text<'_> {
    /// One byte.
    pub fn put(&mut self, byte: u8)
        requires { self.old.end < length self.old.out.now }
        ensures same { self.new.out.ghost_name ≡ self.old.out.ghost_name }
        ensures text { Appended (byte ∷ []) self.old.out.now self.old.end self.new.out.now
            self.new.end }
    {
        self.out[self.end] = byte;
        self.end += 1;
    }

    /// The bytes, copied.
    pub fn word(&mut self, bytes: &[u8])
        requires { self.old.end + length bytes.now ≤ length self.old.out.now }
        ensures same { self.new.out.ghost_name ≡ self.old.out.ghost_name }
        ensures text { Appended bytes.now self.old.out.now self.old.end self.new.out.now
            self.new.end }
    {
        let start = self.end;
        self.end += bytes.len();
        self.out[start..self.end].copy_from_slice(bytes);
    }

    /// A number, decimal without leading zeros: at most ten digits.
    #[tactic(auto, using(crate::specs::Appending::appended_is, crate::specs::Numbers::decimal_is, crate::specs::Numbers::decimal_wide))]
    pub fn number(&mut self, x: u32)
        requires { self.old.end + 10 ≤ length self.old.out.now }
        ensures same { self.new.out.ghost_name ≡ self.old.out.ghost_name }
        ensures text { Appended (decimal x) self.old.out.now self.old.end self.new.out.now
            self.new.end }
        ensures short { self.new.end ≤ self.old.end + 10 }
    {
        let mut digits = [0; 20];
        let count = io::decimal(u64::from(x), &mut digits);
        self.word(&digits[..count]);
    }

    /// A space, then a number.
    pub fn spaced(&mut self, x: u32)
        requires { self.old.end + 11 ≤ length self.old.out.now }
        ensures same { self.new.out.ghost_name ≡ self.old.out.ghost_name }
        ensures text { Appended (Program·spaced x) self.old.out.now self.old.end self.new.out.now
            self.new.end }
        ensures short { self.new.end ≤ self.old.end + 11 }
    {
        self.put(b' ');
        self.number(x);
    }

    /// A colon, then a number.
    pub fn coloned(&mut self, x: u32)
        requires { self.old.end + 11 ≤ length self.old.out.now }
        ensures same { self.new.out.ghost_name ≡ self.old.out.ghost_name }
        ensures text { Appended (Program·coloned x) self.old.out.now self.old.end self.new.out.now
            self.new.end }
        ensures short { self.new.end ≤ self.old.end + 11 }
    {
        self.put(b':');
        self.number(x);
    }
}

// Two's complement: a signed number and the number that its bits are.
ghost use Rattle.std.specs.Prelude.{◌≡◌, ℕ, ℤ, ◌^◌, ◌<◌};
ghost use Rattle.std.specs.Int.Signed.{mag};
ghost use Rattle.model.specs.Bytes.{complement, signed};
ghost use Rattle.laws.proofs.Numbers.{signed_back};

// A type of `half` numbers below 0 and as many from 0 on.
pub trait TwosComplement: Copy {
    type Bits: Copy;

    ghost half: { ℕ };

    ghost value: { Self → ℤ };

    ghost number: { Self.Bits → ℕ };

    // The value whose bits these are.
    fn signed(bits: Self::Bits) -> Self
        ensures { value result ≡ signed half (number bits) };

    // The bits of a value.
    fn complement(self) -> Self::Bits
        ensures { number result ≡ complement half (value self) };

    // What is written is read back.
    ghost read_back: { (z : Self) → mag (value z) < half → signed half (complement half (value z)) ≡ value z };
}

impl TwosComplement for i8 {
    type Bits = u8;

    ghost half = { 128 };

    ghost value = { λ z. z };

    ghost number = { λ n. n };

    ghost read_back = { λ z h. signed_back 128 z h };

    fn signed(byte: u8) -> i8 {
        byte.cast_signed()
    }

    fn complement(self) -> u8 {
        self.cast_unsigned()
    }
}

impl TwosComplement for i16 {
    type Bits = u16;

    ghost half = { 2 ^ 15 };

    ghost value = { λ z. z };

    ghost number = { λ n. n };

    ghost read_back = { λ z h. signed_back (2 ^ 15) z h };

    fn signed(word: u16) -> i16 {
        word.cast_signed()
    }

    fn complement(self) -> u16 {
        self.cast_unsigned()
    }
}

impl TwosComplement for i32 {
    type Bits = u32;

    ghost half = { 2 ^ 31 };

    ghost value = { λ z. z };

    ghost number = { λ n. n };

    ghost read_back = { λ z h. signed_back (2 ^ 31) z h };

    fn signed(long: u32) -> i32 {
        long.cast_signed()
    }

    fn complement(self) -> u32 {
        self.cast_unsigned()
    }
}

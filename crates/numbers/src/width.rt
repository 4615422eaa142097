// The widths of a sheet's numbers: what `read` is generic over. Nothing outside this crate names the trait.
ghost use Rattle.std.specs.Prelude.{◌≡◌, ◌-◌, ◌^◌, ◌≤◌, ℕ, refl};

// A type whose numbers are those below 2 to its width.
pub trait Width: Copy {
    // How many bits it has.
    ghost width: { ℕ };

    // The number that a value is.
    ghost value: { Self → ℕ };

    // The largest number.
    ghost LARGEST: { ℕ };

    const LARGEST: u64;

    // The value that is a number.
    fn narrow(n: u64) -> Self
        requires { n ≤ LARGEST }
        ensures { value result ≡ n };

    // The width settles the largest number.
    ghost below: { LARGEST ≡ 2 ^ width - 1 };
}

impl Width for u8 {
    ghost width = { 8 };

    ghost value = { λ n. n };

    ghost LARGEST = { 2 ^ 8 - 1 };

    const LARGEST: u64 = u8::MAX as u64;

    fn narrow(n: u64) -> u8 {
        n as u8
    }

    ghost below = { refl };
}

impl Width for u32 {
    ghost width = { 32 };

    ghost value = { λ n. n };

    ghost LARGEST = { 2 ^ 32 - 1 };

    const LARGEST: u64 = u32::MAX as u64;

    fn narrow(n: u64) -> u32 {
        n as u32
    }

    ghost below = { refl };
}

impl Width for u64 {
    ghost width = { 64 };

    ghost value = { λ n. n };

    ghost LARGEST = { 2 ^ 64 - 1 };

    const LARGEST: u64 = u64::MAX;

    fn narrow(n: u64) -> u64 {
        n
    }

    ghost below = { refl };
}

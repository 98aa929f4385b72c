//! A number with its decimal digits at hand, for one that changes little from text to text.
ghost use Rattle.std.specs.Prelude.{◌≡◌, ◌+◌, ◌-◌, ◌%◌, ◌<◌, ◌≤◌, ◌++◌, IfOk, OnOk, decimal, vec_capacity};

use itoa::Buffer;
use std::alloc::{AllocError, Global};
use std::marker::Model;

// The digits of the greatest number.
const MOST_DIGITS: usize = 20;

/// A number and its decimal digits. Contracts see the number. After `zero` only `put` takes memory, that of its text.
#[derive(Drop)]
pub struct Digits {
    n: u64,
    digits: Vec<u8>,
}

impl Model for Digits {
    ghost use Rattle.std.specs.Prelude.{◌≡◌, ◌≤◌, ℕ, decimal, vec_capacity};
    ghost use Rattle.decimals.specs.declared.digits.TheConstants.{MOST_DIGITS};

    ghost Value = { ℕ };

    ghost view = { λ a. a.n };

    ghost invariant = { λ a. (a.digits.items ≡ decimal a.n)
        × (MOST_DIGITS ≤ vec_capacity a.digits) };
}

/// The digits of `n` become those of `n + 1`.
#[inline(always)]
fn raise_last(digits: &mut Vec<u8>, n: u64)
    requires digits { digits.old.items ≡ decimal n }
    requires last { n % 10 < 9 }
    ensures digits { digits.new.items ≡ decimal (n + 1) }
    ensures capacity { vec_capacity digits.new ≡ vec_capacity digits.old }
{
    let last = digits.len() - 1;
    digits[last] += 1;
}

/// The digits of `n` become those of `n - 1`.
#[inline(always)]
fn lower_last(digits: &mut Vec<u8>, n: u64)
    requires digits { digits.old.items ≡ decimal n }
    requires last { 0 < n % 10 }
    ensures digits { digits.new.items ≡ decimal (n - 1) }
    ensures capacity { vec_capacity digits.new ≡ vec_capacity digits.old }
{
    let last = digits.len() - 1;
    digits[last] -= 1;
}

/// The digits of a number, for which there is room: appending them does not fail.
fn rewrite(digits: &mut Vec<u8>, n: u64)
    requires { MOST_DIGITS ≤ vec_capacity digits.old }
    ensures digits { digits.new.items ≡ decimal n }
    ensures capacity { MOST_DIGITS ≤ vec_capacity digits.new }
{
    digits.clear();
    let mut buffer = Buffer::new();
    let _ = digits.extend_from_slice(buffer.format(n).as_bytes());
}

impl Digits {
    /// Zero, and the room for each number.
    #[tactic(auto, using(std::proofs::lemmas::Fmt::decimal_digit))]
    pub fn zero(alloc: Global) -> Result<Digits, AllocError>
        ensures { IfOk result (λ d. d ≡ 0) }
    {
        let mut digits = Vec::with_capacity(alloc, MOST_DIGITS)?;
        digits.push_reserved(b'0');
        Ok(Digits { n: 0, digits })
    }

    /// Takes another number. Where only the last digit is another one, by one, the others are left as they stand.
    ///
    /// Example: `digits.set(42)` and then `digits.set(43)`, which writes one digit.
    #[inline(always)]
    pub fn set(&mut self, n: u64)
        ensures { self.new ≡ n }
    {
        if n == self.n {
            return;
        }
        if n > self.n && n - self.n == 1 && self.n % 10 < 9 {
            raise_last(&mut self.digits, self.n);
        } else if n < self.n && self.n - n == 1 && self.n % 10 > 0 {
            lower_last(&mut self.digits, self.n);
        } else {
            rewrite(&mut self.digits, n);
        }
        self.n = n;
    }

    /// The digits, at the end of a text.
    #[inline(always)]
    pub fn put(&self, out: &mut Vec<u8>) -> Result<(), AllocError>
        ensures { OnOk result (out.new.items ≡ out.old.items ++ decimal self.now) }
    {
        out.extend_from_slice(self.digits.as_slice())
    }
}

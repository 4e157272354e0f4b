// Counts with a border.
ghost use Rattle.std.specs.Prelude.{◌≡◌, ◌<◌, ◌≤◌, ◌+◌, ◌-◌, ◌*◌, ◌/◌, ◌%◌, ◌^◌, ℕ, if◌then◌else◌, MatchOption, nat_eq, nat_le};
ghost use Rattle.av_count.specs.Counts.{capped};

/// A number below 2^128, or one that is not.
#[derive(Clone, Copy, Debug, PartialEq, Eq)]
pub enum Count {
    /// The number.
    Known(u128),
    /// It is 2^128 or more.
    Over,
}

impl Count {
    /// The count of a number.
    #[tactic(auto, unfolding(crate::specs::Counts::capped))]
    pub fn of(n: u128) -> Count
        ensures { result ≡ capped n }
    {
        Count::Known(n)
    }

    /// The sum.
    #[tactic(auto, unfolding(crate::specs::Counts::capped))]
    pub fn plus(self, other: Count) -> Count
        ensures { (x y : ℕ) → self ≡ capped x → other ≡ capped y → result ≡ capped (x + y) }
    {
        match (self, other) {
            (Count::Known(a), Count::Known(b)) => match a.checked_add(b) {
                Some(sum) => Count::Known(sum),
                None => Count::Over,
            },
            _ => Count::Over,
        }
    }

    /// The product.
    #[tactic(auto, unfolding(crate::specs::Counts::capped), using(crate::proofs::Border::border))]
    pub fn times(self, other: Count) -> Count
        ensures { (x y : ℕ) → self ≡ capped x → other ≡ capped y → result ≡ capped (x * y) }
    {
        match (self, other) {
            (Count::Known(a), Count::Known(b)) => match a.checked_mul(b) {
                Some(product) => Count::Known(product),
                None => Count::Over,
            },
            (Count::Known(a), Count::Over) => Count::over_unless(a == 0),
            (Count::Over, Count::Known(b)) => Count::over_unless(b == 0),
            (Count::Over, Count::Over) => Count::Over,
        }
    }

    // Over, but for 0 times it.
    fn over_unless(zero: bool) -> Count
        ensures { result ≡ (if zero then Count.Known 0 else Count.Over) }
    {
        if zero { Count::Known(0) } else { Count::Over }
    }

    /// Whether it is 0.
    #[tactic(auto, unfolding(crate::specs::Counts::capped))]
    pub fn is_zero(self) -> bool
        ensures { (x : ℕ) → self ≡ capped x → result ≡ nat_eq x 0 }
    {
        matches!(self, Count::Known(0))
    }

    /// Whether it is over.
    #[tactic(auto, unfolding(crate::specs::Counts::capped))]
    pub fn is_over(self) -> bool
        ensures { (x : ℕ) → self ≡ capped x → result ≡ nat_le (2 ^ 128) x }
    {
        matches!(self, Count::Over)
    }

    /// What is left of a number once this count is taken off. There is none where the number is below it.
    #[tactic(auto, unfolding(crate::specs::Counts::capped))]
    pub fn past(self, r: u128) -> Option<u128>
        ensures { (x : ℕ) → self ≡ capped x → MatchOption result (r < x) (λ left. left + x ≡ r) }
    {
        match self {
            Count::Known(x) => r.checked_sub(x),
            Count::Over => None,
        }
    }

    /// The quotient and the remainder of a number by this count, which is not 0.
    #[tactic(auto, unfolding(crate::specs::Counts::capped))]
    pub fn split(self, r: u128) -> (u128, u128)
        requires { (x : ℕ) × (self ≡ capped x) × (0 < x) }
        ensures { (x : ℕ) → self ≡ capped x → (result.0 ≡ r / x) × (result.1 ≡ r % x) }
    {
        match self {
            Count::Known(x) => (r / x, r % x),
            Count::Over => (0, r),
        }
    }
}

//! What the definitions mean, as theorems: each is the contract of a function that does nothing.
ghost use Rattle.std.specs.Prelude.{◌≡◌, ◌↔◌, ℕ, ℤ, pos, ◌<ℤ◌};
ghost use Rattle.std.specs.Ordering.{MatchOrdering};
ghost use Rattle.std.specs.declared.cmp.Ordering.{Ordering};
ghost use Rattle.wt_golden.specs.Whole.{Whole, whole, phi, plus, times, opposite, sign, IsPositive};
ghost use Rattle.wt_golden.specs.Fractions.{Fraction, top, lowest, sum, product, order, nought, IsSameNumber, IsGreater, DividesAll, AreSpellings};

/// The whole golden numbers are a commutative ring with the whole numbers in it, and φ² = φ + 1.
pub fn golden_ring()
    ensures sums { (x y z : Whole) → plus (plus x y) z ≡ plus x (plus y z) }
    ensures turned_sums { (x y : Whole) → plus x y ≡ plus y x }
    ensures zero { (x : Whole) → plus x (whole (pos 0)) ≡ x }
    ensures opposites { (x : Whole) → plus x (opposite x) ≡ whole (pos 0) }
    ensures products { (x y z : Whole) → times (times x y) z ≡ times x (times y z) }
    ensures turned_products { (x y : Whole) → times x y ≡ times y x }
    ensures one { (x : Whole) → times x (whole (pos 1)) ≡ x }
    ensures both { (x y z : Whole) → times x (plus y z) ≡ plus (times x y) (times x z) }
    ensures square { times phi phi ≡ plus phi (whole (pos 1)) }
{}

/// The sign, which is found by comparing (2 a + b)² with 5 b², is that of an ordered ring: exactly one of above 0, 0 and
/// below 0 holds of each number, sums and products of numbers above 0 are above 0, and so are the whole numbers above
/// 0. Each number above 0 divides a whole number above 0 with a quotient above 0, so that the fractions are a field.
pub fn golden_order()
    ensures signs { (x : Whole) → MatchOrdering (sign x) (IsPositive (opposite x)) (x ≡ whole (pos 0)) (IsPositive x) }
    ensures one { (x : Whole) → IsPositive x → IsPositive (opposite x) → ⊥ }
    ensures zero { IsPositive (whole (pos 0)) → ⊥ }
    ensures sums { (x y : Whole) → IsPositive x → IsPositive y → IsPositive (plus x y) }
    ensures products { (x y : Whole) → IsPositive x → IsPositive y → IsPositive (times x y) }
    ensures whole { (n : ℤ) → pos 0 <ℤ n → IsPositive (whole n) }
    ensures inverse { (x : Whole) → IsPositive x
        → (y : Whole) × (n : ℤ) × IsPositive y × (pos 0 <ℤ n) × (times x y ≡ whole n) }
{}

/// A number in lowest terms is the same number, its divisor is above 0, and nothing but 1 divides all three of its
/// numbers. Fractions of one number have one form in lowest terms.
pub fn lowest_terms()
    ensures same { (f : Fraction) → pos 0 <ℤ f.d → IsSameNumber (lowest f) f }
    ensures above { (f : Fraction) → pos 0 <ℤ f.d → pos 0 <ℤ (lowest f).d }
    ensures apart { (f : Fraction) (k : ℕ) → pos 0 <ℤ f.d → DividesAll k (lowest f) → k ≡ 1 }
    ensures one { (f g : Fraction) → pos 0 <ℤ f.d → pos 0 <ℤ g.d → IsSameNumber f g → lowest f ≡ lowest g }
{}

/// The order of numbers: it answers equal, greater and less exactly where one number is the other, above it or below
/// it; against 0 it is the sign; what is greater stays so through a third number, under a sum, and under a product with
/// a number above 0.
pub fn fraction_order()
    ensures equal { (f g : Fraction) → (order f g ≡ Ordering.Equal) ↔ IsSameNumber f g }
    ensures greater { (f g : Fraction) → (order f g ≡ Ordering.Greater) ↔ IsGreater f g }
    ensures less { (f g : Fraction) → (order f g ≡ Ordering.Less) ↔ IsGreater g f }
    ensures zero { (f : Fraction) → order f nought ≡ sign (top f) }
    ensures through { (f g h : Fraction) → pos 0 <ℤ f.d → pos 0 <ℤ g.d → pos 0 <ℤ h.d
        → IsGreater f g → IsGreater g h → IsGreater f h }
    ensures sums { (f g h : Fraction) → pos 0 <ℤ h.d → IsGreater f g → IsGreater (sum f h) (sum g h) }
    ensures products { (f g h : Fraction) → pos 0 <ℤ h.d → IsGreater f g → IsGreater h nought → IsGreater (product f h) (product g h) }
{}

/// Sums, products and the order are those of the numbers, however they are spelled as fractions.
pub fn spellings_are_one_number()
    ensures sums { (f g h k : Fraction) → IsSameNumber f h → IsSameNumber g k → IsSameNumber (sum f g) (sum h k) }
    ensures products { (f g h k : Fraction) → IsSameNumber f h → IsSameNumber g k → IsSameNumber (product f g) (product h k) }
    ensures orders { (f g h k : Fraction) → AreSpellings f h → AreSpellings g k → order f g ≡ order h k }
{}

// One sample of a ramp: floor(S·f/256) + offset, with f an exact fraction, or in the second edition f cut to a whole number; and the
// product of a sine.
#![tactic(auto)]

ghost use Rattle.std.specs.Prelude.{◌≡◌, ◌*◌, ◌<◌, ◌≤◌, ◌^◌, nat_abs, ◌+ℤ◌, ◌*ℤ◌};
ghost use Rattle.word.specs.Word.{signed_of};
ghost use Rattle.sum.specs.Floor.{floor};
ghost use Rattle.sum.specs.Fraction.{above};
ghost use Rattle.sum.specs.Sample.{sum_of, total_of, side_of, settled, sample_of};
ghost use Rattle.sum.specs.Product.{product_of, scaled_by};

use word::Samples;

// The card's hardware edition: the first rounds a sum once, the second cuts f to a whole number before scaling.
#[derive(Clone, Copy)]
pub enum Edition {
    First,
    Second,
}

// Where a sum lies: below -32768, from there to 32767, or above.
#[derive(Clone, Copy)]
pub enum Side {
    Below,
    Within,
    Above,
}

// The sample as a word, or none where its sum is out of range, with `left` of `step` samples left from the point `from` to the point `to`;
// a step of 0 ends the ramp at `from`. This call and the next are public and keep the paper's quantities as their parameters, one by one.
pub fn sample(
    edition: Edition,
    scale: u16,
    from: u16,
    to: u16,
    step: Samples,
    left: Samples,
    offset: u16,
) -> Option<u16>
    ensures { result ≡ sample_of edition scale from to step.0 left.0 offset }
{
    settle(total(edition, scale, from, to, step, left, offset))
}

// The sum of that sample, before its range is checked. At an end point f is whole, and no edition cuts it.
pub fn total(
    edition: Edition,
    scale: u16,
    from: u16,
    to: u16,
    step: Samples,
    left: Samples,
    offset: u16,
) -> i64
    ensures { result ≡ total_of edition scale from to step.0 left.0 offset }
{
    let den = step.0;
    if den == 0 {
        let num = number(from);
        return Fraction { num, den: 1 }.raised(scale, offset);
    }
    let num = rise(from, to, den, left.0);
    Fraction { num, den }.rounded(edition, scale, offset)
}

// An amplitude times a wave's word, over 16384: the output in sine mode.
pub fn product(amplitude: u16, word: i32) -> Option<u16>
    ensures { result ≡ product_of amplitude word }
{
    settle(scaled(amplitude, word))
}

// The same before its range is checked.
fn scaled(amplitude: u16, word: i32) -> i64
    ensures { result ≡ scaled_by amplitude word }
{
    floor_div(number(amplitude) * i64::from(word), 16384)
}

// The side of the range that a sum lies on.
#[tactic(auto, unfolding(crate::specs::Sample::side_of))]
pub fn side_of(sum: i64) -> Side
    ensures { result ≡ side_of sum }
{
    if sum < -32768 {
        Side::Below
    } else if 32767 < sum {
        Side::Above
    } else {
        Side::Within
    }
}

// The sample of a sum: only this last sum is checked, by the side that it lies on.
#[tactic(auto, unfolding(crate::specs::Sample::side_of))]
pub fn settle(sum: i64) -> Option<u16>
    ensures { result ≡ settled sum }
{
    match side_of(sum) {
        Side::Below | Side::Above => None,
        Side::Within => Some((sum as i16).cast_unsigned()),
    }
}

// A word's number, with room for products: one name for the two conversions, which six places need.
fn number(word: u16) -> i64
    ensures { result ≡ signed_of word }
{
    i64::from(word::signed(word))
}

// n / d, rounded down.
fn floor_div(n: i64, d: u32) -> i64
    requires { 0 < d }
    ensures { result ≡ floor n d }
{
    n.div_euclid(i64::from(d))
}

// step times f, with `left` samples left to the point `to`.
fn rise(from: u16, to: u16, step: u16, left: u16) -> i64
    ensures { result ≡ above (signed_of from) (signed_of to) step left }
{
    let a = number(from);
    let b = number(to);
    b * i64::from(step) - (b - a) * i64::from(left)
}

// f, an exact fraction.
#[derive(Clone, Copy)]
struct Fraction {
    num: i64,
    den: u16,
    ghost bounded: { nat_abs num ≤ 2 ^ 33 },
    ghost positive: { 0 < den },
}

impl Fraction {
    // The sum of an edition at f.
    fn rounded(self, edition: Edition, scale: u16, offset: u16) -> i64
        ensures { result ≡ sum_of edition (signed_of scale) (record { num = self.num; den = self.den }) (signed_of offset) }
    {
        match edition {
            Edition::First => self.raised(scale, offset),
            Edition::Second => self.cut().raised(scale, offset),
        }
    }

    // f, cut to a whole number.
    fn cut(self) -> Fraction
        ensures num { result.num ≡ floor self.num self.den }
        ensures den { result.den ≡ 1 }
    {
        let num = floor_div(self.num, u32::from(self.den));
        Fraction { num, den: 1 }
    }

    // The sum at f, rounded once.
    fn raised(self, scale: u16, offset: u16) -> i64
        ensures { result ≡ floor (signed_of scale *ℤ self.num) (256 * self.den) +ℤ signed_of offset }
    {
        floor_div(number(scale) * self.num, 256 * u32::from(self.den)) + number(offset)
    }
}

// Aggregates of rows.
ghost use Rattle.aggregates.specs.Bounds.{IsAggregate};

/// The sum of some amounts, the least and the greatest.
#[derive(Clone, Copy)]
pub struct Part {
    pub sum: i64,
    pub least: i64,
    pub greatest: i64,
}

/// COUNT of some rows, and SUM, MIN and MAX in each measure. The parts after those of the measures
/// are zero.
#[derive(Clone, Copy)]
pub struct Agg {
    pub parts: [Part; MAX_MEASURES as usize],
    pub count: u32,
    pub measures: u8,
    pub ghost in_range: { IsAggregate count measures parts },
}

impl Agg {
    ghost use Rattle.std.specs.Prelude.{◌≡◌, ◌+◌, ◌<◌, ◌≤◌, length, nat_abs, pos, replicate, All};
    ghost use Rattle.aggregates.specs.Rows.{agg_of_row};
    ghost use Rattle.aggregates.specs.Views.{agg_in};
    ghost use Rattle.cube_laws.specs.Total.{combine};

    /// The aggregate of one row whose amounts are zero.
    pub fn zero(measures: u8) -> Agg
        requires few { measures ≤ MAX_MEASURES }
        ensures aggregate { agg_in result ≡ agg_of_row (replicate measures (pos 0)) }
        ensures measures { result.measures ≡ measures }
    {
        Agg {
            parts: [ZERO; MAX_MEASURES as usize],
            count: 1,
            measures,
        }
    }

    /// The aggregate of one row with these amounts.
    pub fn one(amounts: &[i64]) -> Agg
        requires few { length amounts.now ≤ MAX_MEASURES }
        requires small { All (λ a. nat_abs a ≤ MAX_AMOUNT) amounts.now }
        ensures aggregate { agg_in result ≡ agg_of_row amounts.now }
        ensures measures { result.measures ≡ length amounts.now }
    {
        let mut agg = Agg::zero(amounts.len() as u8);
        agg.restart(amounts);
        agg
    }

    /// Becomes the aggregate of one row with these amounts.
    pub fn restart(&mut self, amounts: &[i64])
        requires measures { length amounts.now ≡ self.old.measures }
        requires small { All (λ a. nat_abs a ≤ MAX_AMOUNT) amounts.now }
        ensures aggregate { agg_in self.new ≡ agg_of_row amounts.now }
        ensures measures { self.new.measures ≡ self.old.measures }
    {
        self.count = 1;
        set_parts(&mut self.parts, amounts);
    }

    /// Adds one row with these amounts.
    pub fn add_row(&mut self, amounts: &[i64])
        requires measures { length amounts.now ≡ self.old.measures }
        requires small { All (λ a. nat_abs a ≤ MAX_AMOUNT) amounts.now }
        requires few { self.old.count < MAX_ROWS }
        ensures aggregate { agg_in self.new ≡ combine (agg_in self.old) (agg_of_row amounts.now) }
        ensures measures { self.new.measures ≡ self.old.measures }
    {
        self.count += 1;
        add_amounts(&mut self.parts, amounts);
    }

    /// Adds the rows of another aggregate.
    pub fn combine(&mut self, other: &Agg)
        requires measures { other.now.measures ≡ self.old.measures }
        requires few { self.old.count + other.now.count ≤ MAX_ROWS }
        ensures aggregate { agg_in self.new ≡ combine (agg_in self.old) (agg_in other.now) }
        ensures measures { self.new.measures ≡ self.old.measures }
    {
        self.count += other.count;
        join_parts(&mut self.parts, &other.parts, self.measures);
    }
}

const ZERO: Part = Part {
    sum: 0,
    least: 0,
    greatest: 0,
};

ghost use Rattle.std.specs.Prelude.{◌≡◌, ℕ, ◌+◌, ◌<◌, ◌≤◌, ◌^◌, length, nat_abs, pos, slice_index_or};
ghost use Rattle.aggregates.specs.Bounds.{zero_part};
ghost use Rattle.aggregates.specs.Rows.{joined, single};

use cube_defs::{MAX_AMOUNT, MAX_MEASURES, MAX_ROWS};

impl Part {
    fn single(amount: i64) -> Part
        ensures { result ≡ single amount }
    {
        Part {
            sum: amount,
            least: amount,
            greatest: amount,
        }
    }

    fn joined(self, other: Part) -> Part
        requires { nat_abs self.sum + nat_abs other.sum < 2 ^ 63 }
        ensures { result ≡ joined self other }
    {
        Part {
            sum: self.sum + other.sum,
            least: self.least.min(other.least),
            greatest: self.greatest.max(other.greatest),
        }
    }
}

fn set_parts(parts: &mut [Part; MAX_MEASURES as usize], amounts: &[i64])
    requires { length amounts.now ≤ MAX_MEASURES }
    ensures set { (k : ℕ) → k < length amounts.now →
        slice_index_or parts.new k zero_part ≡ single (slice_index_or amounts.now k (pos 0)) }
    ensures others { (k : ℕ) → length amounts.now ≤ k →
        slice_index_or parts.new k zero_part ≡ slice_index_or parts.old k zero_part }
    ensures four { length parts.new ≡ MAX_MEASURES }
{
    'parts: for i in 0..amounts.len() {
        parts[i] = Part::single(amounts[i]);
    }
}

fn add_amounts(parts: &mut [Part; MAX_MEASURES as usize], amounts: &[i64])
    requires few { length amounts.now ≤ MAX_MEASURES }
    requires fits { (k : ℕ) → k < length amounts.now →
        nat_abs (slice_index_or parts.old k zero_part).sum
        + nat_abs (slice_index_or amounts.now k (pos 0)) < 2 ^ 63 }
    ensures joined { (k : ℕ) → k < length amounts.now →
        slice_index_or parts.new k zero_part
        ≡ joined (slice_index_or parts.old k zero_part)
        (single (slice_index_or amounts.now k (pos 0))) }
    ensures others { (k : ℕ) → length amounts.now ≤ k →
        slice_index_or parts.new k zero_part ≡ slice_index_or parts.old k zero_part }
    ensures four { length parts.new ≡ MAX_MEASURES }
{
    // One measure is the most frequent case, and needs no loop.
    if amounts.len() == 1 {
        parts[0] = parts[0].joined(Part::single(amounts[0]));
        return;
    }
    'parts: for i in 0..amounts.len() {
        parts[i] = parts[i].joined(Part::single(amounts[i]));
    }
}

fn join_parts(
    parts: &mut [Part; MAX_MEASURES as usize],
    others: &[Part; MAX_MEASURES as usize],
    measures: u8,
)
    requires few { measures ≤ MAX_MEASURES }
    requires fits { (k : ℕ) → k < measures →
        nat_abs (slice_index_or parts.old k zero_part).sum
        + nat_abs (slice_index_or others.now k zero_part).sum < 2 ^ 63 }
    ensures joined { (k : ℕ) → k < measures →
        slice_index_or parts.new k zero_part
        ≡ joined (slice_index_or parts.old k zero_part) (slice_index_or others.now k zero_part) }
    ensures others { (k : ℕ) → measures ≤ k →
        slice_index_or parts.new k zero_part ≡ slice_index_or parts.old k zero_part }
    ensures four { length parts.new ≡ MAX_MEASURES }
{
    'parts: for i in 0..usize::from(measures) {
        parts[i] = parts[i].joined(others[i]);
    }
}

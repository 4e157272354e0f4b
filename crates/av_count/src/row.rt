// Rows of counts.
ghost use Rattle.std.specs.Prelude.{◌≡◌, ◌<◌, ◌≤◌, ◌+◌, ◌-◌, ◌*◌, [], ◌∷◌, ◌++◌, ℕ, IfOk, OnOk, OnErr, length, replicate, slice_index_or, slice_set};
ghost use Rattle.av_count.specs.Counts.{capped};
ghost use Rattle.av_count.specs.Choices.{ahead};
ghost use Rattle.av_count.specs.Tables.{cell};
ghost use Rattle.av_count.specs.declared.count.Count.TheVariants.{Known};

use crate::count::Count;
use av_perm::Memory;
use std::alloc::Global;
use std::marker::Model;

// A count of each size from 0 on.
#[derive(Drop)]
pub struct Row {
    counts: Vec<Count>,
}

impl Model for Row {
    ghost use Rattle.std.specs.Prelude.{List};
    ghost use Rattle.av_count.specs.declared.count.Count.{Count};

    ghost Value = { List Count };

    ghost view = { λ r. r.counts.items };
}

impl Row {
    // A row of nothing but 0.
    pub fn new(alloc: Global, width: usize) -> Result<Row, Memory>
        ensures { IfOk result (λ r. r ≡ replicate width (Known 0)) }
    {
        match vec![in alloc; Count::Known(0); width] {
            Ok(counts) => Ok(Row { counts }),
            Err(_) => Err(Memory),
        }
    }

    // The count of a size.
    pub fn get(&self, size: usize) -> Count
        requires { size < length self.now }
        ensures { result ≡ cell self.now size }
    {
        self.counts[size]
    }

    // Writes the count of a size.
    pub fn put(&mut self, size: usize, count: Count)
        requires { size < length self.old }
        ensures { self.new ≡ slice_set self.old size count }
    {
        self.counts[size] = count;
    }
}

// Rows in order.
#[derive(Drop)]
pub struct Rows {
    items: Vec<Row>,
}

impl Model for Rows {
    ghost use Rattle.std.specs.Prelude.{List};
    ghost use Rattle.av_count.specs.declared.count.Count.{Count};

    ghost Value = { List (List Count) };

    ghost view = { λ r. r.items.items };
}

impl Rows {
    // Rows of nothing but 0.
    pub fn new(alloc: Global, rows: usize, width: usize) -> Result<Rows, Memory>
        ensures { IfOk result (λ r. r ≡ replicate rows (replicate width (Known 0))) }
    {
        let mut items: Vec<Row> = Vec::new(alloc);
        for j in 0..rows {
            if items.push(Row::new(alloc, width)?).is_err() {
                return Err(Memory);
            }
        }
        Ok(Rows { items })
    }

    // The row at an index.
    pub fn row(&self, j: usize) -> &Row
        requires { j < length self.now }
        ensures { result.now ≡ slice_index_or self.now j [] }
    {
        &self.items[j]
    }

    // Writes the count of a size into one row.
    pub fn put(&mut self, j: usize, size: usize, count: Count)
        requires row { j < length self.old }
        requires size { size < length (slice_index_or self.old j []) }
        ensures { self.new ≡ slice_set self.old j (slice_set (slice_index_or self.old j []) size count) }
    {
        let row = &mut self.items[j];
        row.put(size, count);
    }
}

// The number of pairs of a tree of size m of the first row and a list of size `size` - m of the second, for m from 1 on.
pub fn convolved(first: &Row, rest: &Row, size: usize) -> Count
    requires first { size ≤ length first.now }
    requires rest { size ≤ length rest.now }
    ensures { (f g : ℕ → ℕ) → ((m : ℕ) → m < size → cell first.now m ≡ capped (f m)) → ((m : ℕ) → m < size → cell rest.now m ≡ capped (g m)) → result ≡ capped (ahead f g size 1 (size - 1)) }
{
    let mut sum = Count::Known(0);
    for m in 1..size {
        let count = first.get(m);
        if count.is_zero() {
            continue;
        }
        sum = sum.plus(count.times(rest.get(size - m)));
        if sum.is_over() {
            return sum;
        }
    }
    sum
}

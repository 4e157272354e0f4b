// Rows of numbers, by value.
ghost use Rattle.std.specs.Prelude.{◌≡◌, ◌<◌, ◌≤◌, ◌+◌, ◌*◌, ◌^◌, [], ◌∷◌, ◌↔◌, ℕ, IsTrue, EachIndex, IfOk, length, replicate};
ghost use Rattle.av_perm.specs.Relations.{at};
ghost use Rattle.av_dist.specs.Rows.{moved, product, HasRoomFor, Adds};

use av_perm::Memory;
use std::alloc::Global;
use std::marker::Model;

// A number for each value from 0 on; for those past its end it is 0.
#[derive(Drop)]
pub struct Row {
    numbers: Vec<u128>,
}

impl Model for Row {
    ghost use Rattle.std.specs.Prelude.{ℕ, List};

    ghost Value = { List ℕ };

    ghost view = { λ r. r.numbers.items };
}

// Adds a multiple of a row, its values raised by `from`, to numbers. Values past their end are left out.
fn add_multiple(numbers: &mut [u128], from: usize, factor: u128, row: &[u128])
    requires { HasRoomFor (λ v. factor * moved from row.now v) numbers.old }
    ensures { Adds (λ v. factor * moved from row.now v) numbers.old numbers.new }
{
    let len = numbers.len();
    if factor == 0 || from >= len {
        return;
    }
    let count = row.len().min(len - from);
    for i in 0..count {
        numbers[from + i] += factor * row[i];
    }
}

// Adds the product of two rows, its values raised by `from`, to numbers. Values past their end are left out.
fn add_rows(numbers: &mut [u128], from: usize, first: &[u128], second: &[u128])
    requires { HasRoomFor (product (length first.now) from first.now second.now) numbers.old }
    ensures { Adds (product (length first.now) from first.now second.now) numbers.old numbers.new }
{
    let len = numbers.len();
    if from >= len {
        return;
    }
    for k in 0..first.len() {
        if k < len - from {
            add_multiple(numbers, from + k, first[k], second);
        }
    }
}

impl Row {
    // A row of nothing but 0.
    pub fn zeros(alloc: Global, width: usize) -> Result<Row, Memory>
        ensures { IfOk result (λ r. r ≡ replicate width 0) }
    {
        match vec![in alloc; 0u128; width] {
            Ok(numbers) => Ok(Row { numbers }),
            Err(_) => Err(Memory),
        }
    }

    // The row of the value 0, once.
    pub fn one(alloc: Global) -> Result<Row, Memory>
        ensures { IfOk result (λ r. r ≡ 1 ∷ []) }
    {
        match vec![in alloc; 1u128; 1] {
            Ok(numbers) => Ok(Row { numbers }),
            Err(_) => Err(Memory),
        }
    }

    // The number of values from 0 on that it has numbers of.
    pub fn len(&self) -> usize
        ensures { result ≡ length self.now }
    {
        self.numbers.len()
    }

    // The number of a value.
    pub fn get(&self, value: usize) -> u128
        ensures { result ≡ at self.now value }
    {
        if value < self.numbers.len() {
            self.numbers[value]
        } else {
            0
        }
    }

    // Whether it has nothing but 0.
    pub fn is_zero(&self) -> bool
        ensures { IsTrue result ↔ EachIndex self.now (λ v. at self.now v ≡ 0) }
    {
        self.numbers.iter().all(|number| *number == 0)
    }

    // Adds one to the number of the value 0.
    pub fn add_one(&mut self)
        requires some { 1 ≤ length self.old }
        requires room { at self.old 0 + 1 < 2 ^ 128 }
        ensures long { length self.new ≡ length self.old }
        ensures first { at self.new 0 ≡ at self.old 0 + 1 }
        ensures others { (v : ℕ) → 1 ≤ v → at self.new v ≡ at self.old v }
    {
        self.numbers[0] += 1;
    }

    // Adds the product of two rows, its values raised by `from`. Values past the end are left out.
    pub fn add_product(&mut self, from: usize, first: &Row, second: &Row)
        requires { HasRoomFor (product (length first.now) from first.now second.now) self.old }
        ensures { Adds (product (length first.now) from first.now second.now) self.old self.new }
    {
        add_rows(&mut self.numbers, from, &first.numbers, &second.numbers)
    }

    // The product of two rows.
    pub fn times(&self, alloc: Global, other: &Row) -> Result<Row, Memory>
        requires first { length self.now ≤ 2 ^ 32 }
        requires second { length other.now ≤ 2 ^ 32 }
        requires room { (v : ℕ) → product (length self.now) 0 self.now other.now v < 2 ^ 128 }
        ensures long { IfOk result (λ r. length r ≡ length self.now + length other.now) }
        ensures numbers { IfOk result (λ r. (v : ℕ) → at r v ≡ product (length self.now) 0 self.now other.now v) }
    {
        let mut row = Row::zeros(alloc, self.len() + other.len())?;
        row.add_product(0, self, other);
        Ok(row)
    }
}

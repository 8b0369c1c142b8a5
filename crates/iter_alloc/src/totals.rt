//! Columns of facts added up by how much of each is in a region.
ghost use Rattle.std.specs.Prelude.{◌≡◌, ◌≤◌, ◌<◌, ◌+◌, ◌*◌, ◌^◌, All, length, map, pos, ◌+ℤ◌, ◌*ℤ◌, nat_abs, IfOk};
ghost use Rattle.std.specs.List.{range_with_len};
ghost use Rattle.cube_model.specs.Limits.{MAX_FACTS, MAX_VALUE};
ghost use Rattle.iter_alloc.specs.Iterated.{value_of};
ghost use Rattle.iter_alloc.specs.Portions.{AreValued, PORTION_LIMIT, column_total};

use cube_base::{Memory, Nums};
use cube_model::Fact;
use fact_records::FactList;
use std::alloc::Global;

/// The totals of all columns.
pub(crate) fn totals(
    alloc: Global,
    facts: &FactList,
    portions: &[u64],
    columns: u32,
) -> Result<Nums, Memory>
    requires few { length facts.now.facts ≤ MAX_FACTS }
    requires values { AreValued columns facts.now.facts }
    requires as_many { length portions.now ≡ length facts.now.facts }
    requires low { All (λ portion. portion ≤ PORTION_LIMIT) portions.now }
    ensures { IfOk result (λ nums. nums ≡ map (λ column. column_total column facts.now.facts portions.now) (range_with_len 0 columns)) }
{
    let mut nums = Nums::new(alloc);
    for column in 0..columns {
        nums.push(total_of(facts, portions, column, columns))?;
    }
    Ok(nums)
}

/// The total of a column, of so many.
fn total_of(facts: &FactList, portions: &[u64], column: u32, columns: u32) -> i128
    requires few { length facts.now.facts ≤ MAX_FACTS }
    requires values { AreValued columns facts.now.facts }
    requires column { column < columns }
    requires as_many { length portions.now ≡ length facts.now.facts }
    requires low { All (λ portion. portion ≤ PORTION_LIMIT) portions.now }
    ensures { result ≡ column_total column facts.now.facts portions.now }
{
    let mut total = 0;
    let mut i = 0;
    for fact in facts.iter() {
        total = plus_product(total, value(fact, column), portions[i]);
        i += 1;
    }
    total
}

/// A column of a fact, the count being the first.
fn value(fact: Fact, column: u32) -> i64
    requires { column < length fact.cols + 1 }
    ensures { result ≡ value_of column fact }
{
    if column == 0 {
        return 1;
    }
    fact.cols.get(column - 1)
}

/// The total with the value times the portion added.
fn plus_product(total: i128, value: i64, portion: u64) -> i128
    requires { nat_abs (total +ℤ value *ℤ pos portion) ≤ 2 ^ 126 }
    ensures { result ≡ total +ℤ value *ℤ pos portion }
{
    total + i128::from(value) * i128::from(portion)
}

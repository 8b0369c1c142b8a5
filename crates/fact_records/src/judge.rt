//! Judging an edit by its fact.
ghost use Rattle.std.specs.Prelude.{◌≡◌, [], ◌∷◌};
ghost use Rattle.cube_base.specs.declared.code.Code.TheVariants as code;
ghost use Rattle.std.specs.Result.{result_err};
ghost use Rattle.cube_model.specs.Accepted.{first_that_holds, is_missing, is_over, is_repeat};
ghost use Rattle.cube_model.specs.Facts.{has_id};
ghost use Rattle.fact_records.specs.Judge.{edit_cols_refusal, edit_region_refusal, fact_refusal};
ghost use Rattle.fact_records.specs.Valid.{IsEditOver};

use crate::{FactList, Shape, check_cols, check_region};
use cube_base::Code;
use cube_model::{Edit, MAX_FACTS};
use region_algebra::Space;

/// Judges an edit by its fact and by the facts that there are: the first of these that holds is answered. `Value` or
/// `Parts`, the values are refused; `Exists`, a put's id is there; `Missing`, the id of a change or a withdrawal is not;
/// `Region`, the region has more than 2^20 cells; `Facts`, a put finds 2^20 facts. It takes no memory.
pub fn judge_fact(shape: &Shape, space: &Space, edit: &Edit, facts: &FactList) -> Result<(), Code>
    requires { IsEditOver space.now edit.now }
    ensures { result_err result ≡ fact_refusal shape.now space.now edit.now facts.now.facts }
{
    judge_cols(shape, edit)?;
    judge_id(edit, facts)?;
    judge_region(space, edit)?;
    if is_over(edit, facts) {
        return Err(Code::Facts);
    }
    Ok(())
}

/// Judges the values of an edit's fact.
fn judge_cols(shape: &Shape, edit: &Edit) -> Result<(), Code>
    ensures { result_err result ≡ edit_cols_refusal shape.now edit.now }
{
    match edit {
        Edit::Put(fact) | Edit::Change(fact) => check_cols(shape, fact.cols),
        Edit::Withdraw(_) => Ok(()),
    }
}

/// Judges whether the id of an edit is there where it should be, and only there.
fn judge_id(edit: &Edit, facts: &FactList) -> Result<(), Code>
    ensures { result_err result ≡ first_that_holds ((is_repeat edit.now facts.now.facts, code.Exists)
        ∷ (is_missing edit.now facts.now.facts, code.Missing) ∷ []) }
{
    match edit {
        Edit::Put(fact) if facts.has(fact.id) => Err(Code::Exists),
        Edit::Change(fact) if !facts.has(fact.id) => Err(Code::Missing),
        Edit::Withdraw(id) if !facts.has(*id) => Err(Code::Missing),
        _ => Ok(()),
    }
}

/// Judges the region of an edit's fact.
fn judge_region(space: &Space, edit: &Edit) -> Result<(), Code>
    requires { IsEditOver space.now edit.now }
    ensures { result_err result ≡ edit_region_refusal space.now edit.now }
{
    match edit {
        Edit::Put(fact) | Edit::Change(fact) => check_region(space, fact.region),
        Edit::Withdraw(_) => Ok(()),
    }
}

/// Whether an edit is a put where there is no room for a fact.
fn is_over(edit: &Edit, facts: &FactList) -> bool
    ensures { result ≡ is_over edit.now facts.now.facts }
{
    matches!(edit, Edit::Put(_)) && facts.len() >= MAX_FACTS
}

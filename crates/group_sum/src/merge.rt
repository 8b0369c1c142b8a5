//! Other terms merged into own ones, in place.
ghost use Rattle.std.specs.Prelude.{◌≡◌, ◌+◌, ◌-◌, ◌<◌, ◌≤◌, length, take, Some, None, if◌then◌else◌, ◌==◌};
ghost use Rattle.group_sum.specs.Terms.{AreTerms};
ghost use Rattle.group_sum.specs.Back.{FitsLevel, IsPlaceBehind, StepsBack, missing_in};
ghost use Rattle.group_sum.specs.Merge.{FitsMerge, Merges};
ghost use Rattle.group_sum.specs.Place.{Ascend, term_at};

use crate::heads::is_ahead;
use crate::rows::Rows;

/// What is still to be merged: so many own terms, and so many others, go to the places before this one.
#[derive(Clone, Copy, Debug)]
pub struct Ahead {
    pub own: usize,
    pub other: usize,
    pub place: usize,
}

/// How many of the other terms have a denominator that the own terms have not.
pub fn count_missing(own: &Rows, other: &Rows) -> usize
    requires own { Ascend own.now.terms }
    requires other { Ascend other.now.terms }
    ensures { result ≡ missing_in own.now.terms other.now.terms }
{
    let (mut i, mut missing) = (0, 0);
    for j in 0..other.len() {
        let den = other.den(j);
        i = first_from(own, i, den);
        if !is_ahead(own, i, den) {
            missing += 1;
        }
    }
    missing
}

// The first place from one on at which the denominator is not smaller.
fn first_from(terms: &Rows, from: usize, den: u64) -> usize
    requires { IsPlaceBehind terms.now.terms den from }
    ensures behind { IsPlaceBehind terms.now.terms den result }
    ensures first { result < length terms.now.terms → den ≤ (term_at terms.now.terms result).den }
{
    let mut at = from;
    'smaller: while at < terms.len() && terms.den(at) < den {
        at += 1;
    }
    at
}

/// Merges other terms into the own ones, which stand in front of as many as are missing. Numerators of equal denominators
/// are added up. It begins at the back, so that each place is written once, and no term before it is read.
pub fn merge(rows: &mut Rows, own: usize, other: &Rows)
    requires columns { rows.old.columns ≡ other.now.columns }
    requires own { AreTerms (record { columns = rows.old.columns; terms = take own rows.old.terms }) }
    requires other { AreTerms other.now }
    requires room { length rows.old.terms ≡ own + missing_in (take own rows.old.terms) other.now.terms }
    requires within { FitsMerge (record { columns = rows.old.columns; terms = take own rows.old.terms }) other.now }
    ensures merges { Merges (record { columns = rows.old.columns; terms = take own rows.old.terms }) other.now rows.new }
    ensures terms { AreTerms rows.new }
{
    let mut ahead = Ahead {
        own,
        other: other.len(),
        place: rows.len(),
    };
    'back: while ahead.other > 0 {
        ahead = step(rows, other, ahead);
    }
}

// Fills the last place with the greater of the last terms, or with what both add up to.
fn step(rows: &mut Rows, other: &Rows, ahead: Ahead) -> Ahead
    requires columns { rows.old.columns ≡ other.now.columns }
    requires some { 1 ≤ ahead.other }
    requires others { ahead.other ≤ length other.now.terms }
    requires own { ahead.own ≤ ahead.place }
    requires some_place { 1 ≤ ahead.place }
    requires places { ahead.place ≤ length rows.old.terms }
    requires within { FitsLevel rows.old other.now ahead }
    ensures columns { rows.new.columns ≡ rows.old.columns }
    ensures steps { StepsBack rows.old.terms other.now.terms rows.new.terms ahead result }
{
    let (j, place) = (ahead.other - 1, ahead.place - 1);
    let den = other.den(j);
    match last_den(rows, ahead.own) {
        Some(own) if own > den => {
            rows.copy(ahead.own - 1, place);
            Ahead {
                own: ahead.own - 1,
                other: ahead.other,
                place,
            }
        }
        Some(own) if own == den => {
            rows.copy(ahead.own - 1, place);
            rows.add_row(place, other.row(j));
            Ahead {
                own: ahead.own - 1,
                other: j,
                place,
            }
        }
        _ => {
            rows.write(place, den, other.row(j));
            Ahead {
                own: ahead.own,
                other: j,
                place,
            }
        }
    }
}

// The denominator of the last of so many terms, if there are any.
fn last_den(rows: &Rows, len: usize) -> Option<u64>
    requires { len ≤ length rows.now.terms }
    ensures { result ≡ (if len == 0 then None else Some (term_at rows.now.terms (len - 1)).den) }
{
    if len == 0 {
        None
    } else {
        Some(rows.den(len - 1))
    }
}

//! Values of a fact in an array.
ghost use Rattle.std.specs.Prelude.{◌≡◌, ◌+◌, ◌≤◌, ◌++◌, length, take};
ghost use Rattle.cube_model.specs.Limits.{MAX_COLS};

use cube_base::{Cols, MAX_COLS};

/// The values in the first places of an array.
pub fn places_of(cols: Cols) -> [i64; MAX_COLS]
    ensures { take (length cols) result ≡ cols }
{
    let mut places = [0; MAX_COLS];
    for i in 0..cols.len() {
        places[i as usize] = cols.get(i);
    }
    places
}

/// The values, and these more after them.
pub fn append(cols: Cols, more: Cols) -> Cols
    requires { length cols + length more ≤ MAX_COLS }
    ensures { result ≡ cols ++ more }
{
    let mut places = places_of(cols);
    let mut end = cols.len() as usize;
    for i in 0..more.len() {
        places[end] = more.get(i);
        end += 1;
    }
    Cols::new(&places[..end]).unwrap()
}

//! What an edit moves.
use cube_model::{Edit, Fact};
use touched_cells::{Change, Few};

/// An edit, its old fact and its new fact, the codes of their regions, and the cells that these are, where they are one. Beside them
/// stand the changes of the cells that it touches, and those of them that make a cell weigh otherwise.
#[derive(Drop)]
pub struct Moves {
    pub edit: Edit,
    pub taken: Option<Fact>,
    pub given: Option<Fact>,
    pub taken_code: Option<u64>,
    pub given_code: Option<u64>,
    pub taken_cell: Option<u64>,
    pub given_cell: Option<u64>,
    pub touched: Few<Change>,
    pub reweighing: Few<Change>,
}

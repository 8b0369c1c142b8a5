//! The measures of a cube, and facts as they are kept: which values and regions a fact may have, how a field spells
//! the values of a measure, and the list of the facts. Facts in the order in which a file has them, and whether all of them
//! may be put.
#![tactic(auto)]

mod block;
mod blocks;
mod checks;
mod copies;
mod fact_list;
mod fact_reader;
mod fact_seq;
mod fact_walk;
mod in_room;
mod judge;
mod laws;
mod lengths;
mod level;
mod list_copies;
mod measure_reader;
mod moves;
mod places;
mod search;
mod sequence_judge;
mod sequence_laws;
mod shape;
mod short_lists;
mod starts;
mod value_reader;
mod values;

pub use checks::{check_cols, check_region};
pub use cube_model::{Edit, Fact};
pub use fact_list::{FactList, FactRun};
pub use fact_reader::{read_fact, read_id, read_region};
pub use fact_seq::{BadRecord, FactSeq};
pub use fact_walk::FactWalk;
pub use judge::judge_fact;
pub use laws::{
    accepted_values_are_small, worked_columns, worked_facts, worked_fields, worked_judgements,
};
pub use list_copies::copy_with_room;
pub use measure_reader::{MeasureKind, read_measure};
pub use sequence_judge::judge_seq;
pub use sequence_laws::worked_sequences;
pub use shape::{Kind, Measure, Shape, width};
pub use value_reader::read_values;
pub use values::read_value;

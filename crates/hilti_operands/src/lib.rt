//! What the operands of a line say: each written operand is read where its row's kind asks for it, as the typed operand
//! that it stands for or the first refusal with its code and place.
#![tactic(auto)]

mod codes;
mod counts;
mod groups;
mod known;
pub mod laws;
mod learning;
mod lines;
mod literal;
mod names;
mod operands;
mod own;
mod start;
mod values;
mod view;
mod widths;

pub use codes::refusal;
pub use counts::are_counted;
pub use known::{Known, known_object, known_part, known_type};
pub use lines::{ReadOperands, read_all};
pub use operands::read_operand;
pub use own::kind_given;
pub use values::given;
pub use view::{BodyView, LineView};
pub use widths::{written_null, written_width};

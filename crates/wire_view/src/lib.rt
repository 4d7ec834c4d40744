//! Messages that were checked, read where they lie: the parts of a message, borrowed from its bytes. No
//! getter copies or takes memory, and each finds its part in constant time, or by halving.
#![tactic(auto)]

mod absent;
mod array_view;
mod cells;
mod known;
mod message;
mod numbers;
mod objects;
mod on;
mod parts;
mod places;
mod shapes;
mod sorted;
mod struct_view;
mod texts;
mod view;

pub use array_view::ArrayView;
pub use message::root;
pub use parts::Part;
pub use shapes::Shape;
pub use struct_view::StructView;
pub use texts::Utf8;
pub use view::View;

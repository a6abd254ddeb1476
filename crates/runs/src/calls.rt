// A call on a walk, with what it brings and what it is answered.
use faults::BoardFault;
use walk::{Advance, Look};

// One call. An advance brings its own collector and a present its own row; the answer is none until the call was made.
// No closures stand here, as a caller writes the calls down as data and reads them again with their answers.
#[derive(Drop)]
pub enum Call<C> {
    Advance {
        allowance: u64,
        collector: C,
        answer: Option<Advance>,
    },
    Look {
        answer: Option<Look>,
    },
    Present {
        row: Vec<u8>,
        answer: Option<Result<(), BoardFault>>,
    },
}
